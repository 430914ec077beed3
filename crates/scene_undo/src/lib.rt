//! Edits undone: for each edit of a scene the edits that lead back to the same parts, and the versions for which they are
//! kept.
#![tactic(auto)]

mod edits;
mod inverting;
pub mod laws;
mod versions;

pub use edits::Inverse;
pub use inverting::inverse;
pub use versions::{KeptVersion, keeps, make_room, never_fits, take_later};
