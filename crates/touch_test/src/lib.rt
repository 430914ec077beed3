//! Which receivers an edit touches, and the law that all others keep their levels.
#![tactic(auto)]

mod boxes;
mod crossings;
mod envelopes;
mod grids;
pub mod laws;
mod parts;
mod touching;

pub use envelopes::Envelope;
pub use grids::puts;
pub use touching::{may_touch, names_receiver, touches, touches_row};
