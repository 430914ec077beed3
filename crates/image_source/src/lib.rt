//! First-order reflections by way of the sides of barriers and buildings, by image sources (ISO 9613-2, 7.5).
//!
//! A side mirrors a source to a receiver where the specular point lies on it. The path by way of it has two legs, which
//! obstacles may cross, and the surface has to be large enough against the wavelength.
#![tactic(auto)]

mod dimension;
mod facing;
mod image;
pub mod laws;
mod leg;
mod near;
mod placing;
mod reflecting;
mod search;

pub use dimension::{big_enough, big_enough_in_bands, dimension_squared, needed_squared};
pub use facing::{FacingSide, FacingSides};
pub use image::Mirror;
pub use leg::Leg;
pub use near::{find_leg_crossings_near, leg_cuts_near};
pub use reflecting::{has_mirror, mirror};
pub use search::{find_leg_crossings, leg_cuts};
