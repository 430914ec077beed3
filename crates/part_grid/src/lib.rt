//! An index of the sides of obstacles by cells of the plan: the sides near a segment or within a box are found without
//! a look at all of them.
//!
//! A cell is a square of 65,536 mm. The cells of a side are all cells of its bounding box. What is near a segment is
//! exact: the sides with a cell among those that the segment walks through, in the order in which they were given.
#![tactic(auto)]

mod cells;
mod found;
mod grid;
pub mod laws;
mod numbers;
mod owned;

pub use cells::walk::cells_meet;
pub use cells::way::end_at;
pub use found::Found;
pub use grid::Grid;
pub use owned::{Owned, Place};
