//! The cells of an index, and which of them a side or a way has.

pub(crate) mod entering;
pub(crate) mod frame;
pub(crate) mod lines;
pub(crate) mod span;
pub(crate) mod walk;
pub(crate) mod way;
