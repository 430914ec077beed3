//! How much of each region lies in zones of ground, and the ground factors that come of it.

pub(crate) mod beside;
pub(crate) mod covering;
pub(crate) mod crossed;
pub(crate) mod lengths;
pub(crate) mod line;
pub(crate) mod share;
pub(crate) mod walk;
