//! The attenuation by screening (ISO 9613-2, 7.4), as enclosing intervals.
//!
//! Sound bends over the top edges that a path passes, one alone or two one after another, and round the vertical edges of
//! a chain of corners. What the octave bands share of a path is calculated once, in `Screens`.
#![tactic(auto)]

pub mod laws;
mod pair;
mod screens;
mod sides;
mod single;
mod top;

pub use screens::{EdgeBuffers, Screens};
pub use sides::{RoundSides, d_z_side};
pub use top::{a_bar, d_z_top};
