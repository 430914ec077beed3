//! What the bands share of a path, be it the direct line or the legs by way of a wall.

pub(crate) mod absorption;
pub(crate) mod foliage;
pub(crate) mod lengths;
pub(crate) mod propagation;
pub(crate) mod screening;
