//! From the part of a line to a part of a scene: what is checked, and what a check gives.

pub(crate) mod checked;
pub(crate) mod checking;
pub(crate) mod powers;
pub(crate) mod ranges;
