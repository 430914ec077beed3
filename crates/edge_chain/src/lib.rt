//! The way round the sides of obstacles, for lateral diffraction (ISO 9613-2, 7.4, equation 13): the string that is
//! stretched from source to receiver round the points on one hand of the line between them.
#![tactic(auto)]

mod base;
mod blocking;
mod hand;
pub mod laws;
mod stretching;
mod winding;

pub use blocking::is_blocked;
pub use hand::Hand;
pub use stretching::{chain, stretch};
