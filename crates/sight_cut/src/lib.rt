//! Where obstacles cross the plan line from source to receiver, for screening (ISO 9613-2, 7.4).
//!
//! A line is searched once for all bands; in which of them an obstacle is large enough is tested where it crosses.
#![tactic(auto)]

mod cutting;
pub mod laws;
mod near;

pub use cutting::{cuts, find_crossings};
pub use near::{cuts_near, find_crossings_near, grid_of};
