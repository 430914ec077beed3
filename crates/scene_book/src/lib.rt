//! The scene: its parts in the order of insertion, and the edits that change it.
#![tactic(auto)]

mod applying;
mod edits;
mod filing;
pub mod grids;
pub mod laws;
pub mod limits;
mod named;
mod register;
mod scene;
mod shared;

pub use edits::{Edit, EditFault, Logged};
pub use named::part_name;
pub use scene::Scene;
pub use scene_parts::NoMemory;
