//! A board that an editor, workers and lookers share: each call is one turn of the board's machine, and there is one
//! legal history of all calls.
//!
//! A [`MapLock`] holds the board. The editor has the one [`EditorSeat`], from which seats of workers and lookers are
//! split; each seat knows a beginning of the history, and in it each of its own calls once.
#![tactic(auto)]

mod bell;
mod desk;
mod lock;
mod machine;
mod reply;
mod reserve;
mod seats;
mod settling;
mod solving;
mod turns;

pub use desk::Unsolved;
pub use lock::MapLock;
pub use seats::{EditorSeat, LookSeat, WorkerSeat};
