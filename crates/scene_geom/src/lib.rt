//! Exact plan geometry over whole millimetres: the predicates by which ISO 9613-2's paths are found.
//! Each is exactly its definition in `specs/`, without rounding, within 64 bits and, along the legs of
//! reflections, within 128. No call takes memory.
#![tactic(auto)]

mod band;
mod directions;
mod fractions;
pub mod laws;
mod meetings;
mod outline;
mod plan;
mod reflection;

pub use band::Band;
pub use directions::aims::dir_of;
pub use directions::direction::Dir;
pub use directions::turns::orient;
pub use fractions::fraction::Frac;
pub use fractions::places::{lies_inside, rest_after};
pub use meetings::crossing::{Passage, blocks, crosses, hits, passes};
pub use meetings::meeting::meets;
pub use outline::{area2, extent};
pub use plan::{Pt, Side};
pub use reflection::{Reflection, is_short, on_one_side, unfold};
