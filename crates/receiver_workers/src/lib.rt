//! Workers that take jobs at a desk, solve them and offer the answers, until the desk is finished.
//!
//! A [`Desk`] hands out jobs and takes answers, and has a meaning for contracts: which jobs a seat
//! owes, and what its last call was. [`work`] is one worker, and [`with_workers`] runs one at each
//! seat beside a body.
#![tactic(auto)]

mod calls;
mod desk;
mod ended;
mod worker;
mod workers;

pub use calls::{SeatCall, Taken};
pub use desk::Desk;
pub use ended::Ended;
pub use worker::work;
pub use workers::with_workers;
