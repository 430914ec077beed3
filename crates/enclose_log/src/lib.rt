//! The common logarithm of an interval, as an interval that encloses it.
//!
//! Levels of ISO 9613-2 are ten or twenty times a common logarithm. `lg` finds it to 32 binary digits at each end,
//! rounded down at the low end and up at the high end. The digits are guessed and tested by powers of ten; where these
//! don't tell, they are taken one by one, with 64-bit squares and no division wider than a multiplication by a
//! constant. `laws` says that the value encloses the logarithm.
#![tactic(auto)]

mod digits;
mod guess;
pub mod laws;
mod logarithm;
mod nodes;
mod start;

pub use logarithm::lg;
