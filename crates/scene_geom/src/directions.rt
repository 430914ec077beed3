//! Ways from point to point: their directions, and to which hand they turn.

pub(crate) mod aims;
pub(crate) mod direction;
pub(crate) mod step;
pub(crate) mod turns;
