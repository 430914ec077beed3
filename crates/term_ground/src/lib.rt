//! The attenuation by the ground (ISO 9613-2, 7.3), as enclosing intervals.
//!
//! A path has a source region, a middle region and a receiver region. Each has a ground factor G, the part of it that is
//! porous, of which Table 3 makes the attenuation in each octave band. The alternative method (7.3.2) takes the heights of
//! the path and its length alone.
#![tactic(auto)]

mod amounts;
mod attenuation;
mod coverage;
mod decays;
mod extents;
pub mod laws;
mod legs;
mod simple;

pub use attenuation::{a_gr, a_gr_between};
pub use coverage::share::region_share;
pub use decays::{Decays, decays_at};
pub use legs::region::Region;
pub use simple::{a_gr_simple, d_omega};
