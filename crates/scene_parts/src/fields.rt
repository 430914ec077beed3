//! The checks of single fields, for words that have them in common with the parts.
pub use crate::checks::powers::{directivity, powers};
pub use crate::checks::ranges::{height, in_range, within};
pub use crate::outlines::shapes::{check_outline, corners};
pub use crate::words::kind_named;
