//! The marking of the numbers that are entered in cells.

ghost use Rattle.std.specs.Prelude.{◌≡◌, ◌<◌, ℕ, false, true, ◌||◌, length, slice_index_or};
ghost use Rattle.std.specs.List.{list_any};
ghost use Rattle.part_grid.specs.Span.{has, common, lines};
ghost use Rattle.part_grid.specs.inner.Index.{cells_of, entered};

use crate::cells::frame::{Frame, cell_number};
use crate::cells::span::Span;
use crate::numbers::marks::Marks;
use crate::numbers::register::Register;

/// Marks the numbers that are entered in the cells of a column within some rows.
pub fn mark_column(register: &Register, frame: Frame, column: usize, rows: Span, marks: &mut Marks)
    requires columns { frame.columns.high < 124 }
    requires rows { frame.rows.high < 124 }
    requires column { has frame.columns column ≡ true }
    requires cells { length register.now ≡ cells_of frame }
    ensures count { length marks.new ≡ length marks.old }
    ensures marks { (i : ℕ) → i < length marks.old → slice_index_or marks.new i false
        ≡ (slice_index_or marks.old i false
        || list_any (λ row. entered register.now frame column row i) (lines (common rows frame.rows))) }
{
    let shared = rows.common(frame.rows);
    for row in shared.low..shared.high + 1 {
        register.mark(cell_number(frame, column, row), marks);
    }
}
