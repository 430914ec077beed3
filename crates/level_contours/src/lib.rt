//! Level contours: where on a grid of receivers the level surely reaches a limit and where it surely doesn't, as loops
//! round its cells, and as text.
#![tactic(auto)]

mod comparing;
mod contour_rows;
mod lookup;
mod missing;
mod names;
mod reading;

pub use cell_loops::{Cell, Cells, Corner, Family, Loop, Loops, loops};
pub use comparing::cell;
pub use contour_rows::{contour_text, row_texts};
pub use csv_rows::RowWriter;
pub use missing::first_missing;
pub use reading::cells;
pub use scene_parts::NoMemory;
