//! The legs by which a path leads, and the regions of ground below them.

pub(crate) mod leg;
pub(crate) mod region;
pub(crate) mod route;
pub(crate) mod stretch;
