//! The board of a map: a scene that is edited, and for each receiver what was calculated of it and for which version.
//! Every call of a [`Board`] is a step of one machine, so that several can share it.
#![tactic(auto)]

mod answers;
mod calls;
mod edits;
mod jobs;
pub mod laws;
mod looks;
mod past;
mod returns;
mod rows;
mod scenes;
mod state;

pub use answers::{Landed, Shown};
pub use calls::{BoardCall, BoardReply, Took};
pub use jobs::{Answer, Job};
pub use looks::{LookAll, LookRow, LookRows};
pub use state::Board;
