//! Numbers that are entered in cells, and marks at numbers.

pub(crate) mod marking;
pub(crate) mod marks;
pub(crate) mod register;
