//! The loops round sets of cells of a grid: closed lines of edges, with a cell of the set on their left and none on
//! their right.
#![tactic(auto)]

mod corners;
mod gathering;
mod kinds;
mod region;
mod shapes;
mod tracing;
mod walking;

pub use corners::Corner;
pub use kinds::{Cell, Family};
pub use shapes::{Cells, Loop, Loops};
pub use tracing::loops;
