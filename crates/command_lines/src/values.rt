//! The values of a line: texts, numbers and arrays of its fields.

pub(crate) mod arrays;
pub(crate) mod fields;
pub(crate) mod names;
pub(crate) mod points;
pub(crate) mod powers;
