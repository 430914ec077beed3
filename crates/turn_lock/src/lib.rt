//! A machine that any number of threads take in turns, with one legal history.
//!
//! A [`Machine`] is a value that answers calls. A [`Turn`] holds it and gives it to one caller at a time, in the order
//! in which the callers drew their tickets. Each caller has a [`Seat`], which knows a beginning of the one history of
//! all calls, and in it each of its own calls once. The history exists in the proofs alone.
#![tactic(auto)]

mod calling;
mod entry;
mod laws;
mod machine;
mod plays;
mod seat;
mod taking;
mod turn;
mod view;

pub use entry::{Entry, Joined};
pub use laws::{Fact, between_none, kept_where, last_step, run_through};
pub use machine::Machine;
pub use seat::Seat;
pub use turn::{NoMemory, Turn};
