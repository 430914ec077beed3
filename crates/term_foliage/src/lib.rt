//! The attenuation by dense foliage (ISO 9613-2, Table A.1), as enclosing intervals.
//!
//! Foliage counts on a path that it meets, where the sight line from the source to the receiver runs below its top. Table
//! A.1 makes the attenuation in each octave band of the distance that the sound goes through it.
#![tactic(auto)]

mod attenuation;
mod distance;
pub mod laws;

pub use attenuation::{a_fol, a_fol_over};
pub use distance::distance_through;
