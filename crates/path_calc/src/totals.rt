//! The levels of a receiver, from all of its sources.

pub(crate) mod addition;
pub(crate) mod numbers;
pub(crate) mod results;
