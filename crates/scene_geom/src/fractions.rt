//! Fractions of a way, and places on a line of sight.

pub(crate) mod fraction;
pub(crate) mod places;
