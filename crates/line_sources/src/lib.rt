//! Lines of sources: a line that sounds along its whole length is cut into pieces, each of which is a point source at its
//! middle (ISO 9613-2, clause 4).
#![tactic(auto)]

mod batches;
mod counts;
mod edits;
mod gains;
mod legs;
mod lines;
mod names;
mod places;
mod removals;
mod sources;

pub use batches::batch_edits;
pub use edits::LineEdits;
pub use lines::{pieces, unline};
