//! Paths of sound in plan: their two ends, the plan length, the legs by which they lead, and how much of them an outline
//! holds that they meet, as a zone of ground or foliage.
#![tactic(auto)]

pub mod laws;
mod legs;
mod outline;
mod path;
mod stretch;

pub use legs::Legs;
pub use outline::{fold_passages, length_on, turns_right};
pub use path::Path;
pub use stretch::{Stretch, place};
