//! The parts of a scene: sources, barriers, buildings, zones, foliage, receivers, grids and settings, each within
//! its ranges by its type, and the check that makes them of what a line gives or names the first fault. Beside them
//! stands what a crossing of an obstacle's side is, with the test of the obstacle's size in each band.
#![tactic(auto)]

mod checks;
mod faults;
pub mod fields;
mod kinds;
pub mod limits;
mod memory;
mod outlines;
mod parts;
mod screening;
mod settings;
mod texts;
mod words;

pub use checks::checked::Checked;
pub use checks::checking::{RawPart, check};
pub use faults::PartFault;
pub use kinds::{Air, Field, Ground, Kind, Shape};
pub use memory::NoMemory;
pub use outlines::shapes::squared;
pub use outlines::{Outline, RawPoints, RawPt};
pub use parts::{Class, Foliage, Obstacle, Part, PointSource, Receiver, Zone};
pub use screening::crossing::Crossing;
pub use screening::cuts::Cut;
pub use screening::edge::Edge;
pub use screening::edges::{side_of, sides};
pub use screening::ends::Ends;
pub use screening::size_test::{Breadth, bands_of, in_band};
pub use settings::{Globals, GridSpec, SetSpec};
pub use texts::{Name, PlainName, Word};
