//! What a receiver has from the sources of a scene (ISO 9613-2, clause 6): the energies from each source, and the
//! levels of them all.
#![tactic(auto)]

mod bundles;
mod direct;
mod energies;
mod indexed;
mod lateral;
pub mod laws;
mod prepared;
mod reflected;
mod totals;
mod workspace;

pub use bundles::Bundle;
pub use bundles::calculation::{bundle, bundle_between, bundle_near};
pub use bundles::segments::{Seg, Segs};
pub use bundles::steps::Steps;
pub use direct::lengths::within;
pub use image_source::FacingSides;
pub use indexed::IndexedScene;
pub use part_grid::Grid;
pub use prepared::{PreparedReceiver, PreparedSource};
pub use scene_geom::Band;
pub use scene_parts::NoMemory;
pub use totals::addition::{levels, total_level};
pub use totals::results::Levels;
pub use workspace::Workspace;
