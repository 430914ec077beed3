//! The columns and rows over which cells are laid.

ghost use Rattle.std.specs.Prelude.{◌≡◌, ◌<◌, true};
ghost use Rattle.part_grid.specs.Span.{has};
ghost use Rattle.part_grid.specs.inner.Index.{cell_at, cells_of, HoldsAll};
ghost use Rattle.part_grid.specs.inner.Index.{frame_of as frame_of_sides, hull as hull_of};

use crate::cells::lines::{columns_between, rows_between};
use crate::cells::span::Span;
use crate::owned::Owned;

/// The columns and the rows that some sides use, with all between them.
#[derive(Clone, Copy, Debug)]
pub struct Frame {
    pub columns: Span,
    pub rows: Span,
}

/// The number of lines of cells across the plan.
const LINES: usize = 124;

/// The frame of some sides: from the lowest line that one of them uses to the highest.
pub fn frame_of(sides: &[Owned]) -> Frame
    ensures value { result ≡ frame_of_sides sides.now }
    ensures columns { result.columns.high < 124 }
    ensures rows { result.rows.high < 124 }
    ensures holds { HoldsAll result sides.now }
{
    let none = Span {
        low: LINES,
        high: 0,
    };
    let mut frame = Frame {
        columns: none,
        rows: none,
    };
    for owned in sides {
        let side = owned.side;
        frame.columns = hull(frame.columns, columns_between(side.from, side.to));
        frame.rows = hull(frame.rows, rows_between(side.from, side.to));
    }
    frame
}

/// The lines from the lowest to the highest of two spans.
fn hull(a: Span, b: Span) -> Span
    ensures { result ≡ hull_of a b }
{
    Span {
        low: a.low.min(b.low),
        high: a.high.max(b.high),
    }
}

/// The number of cells.
pub fn cell_count(frame: Frame) -> usize
    requires columns { frame.columns.high < 124 }
    requires rows { frame.rows.high < 124 }
    ensures { result ≡ cells_of frame }
{
    frame.columns.width() * frame.rows.width()
}

/// The number of a cell: the cells are counted column by column.
pub fn cell_number(frame: Frame, column: usize, row: usize) -> usize
    requires columns { frame.columns.high < 124 }
    requires rows { frame.rows.high < 124 }
    requires column { has frame.columns column ≡ true }
    requires row { has frame.rows row ≡ true }
    ensures value { result ≡ cell_at frame column row }
    ensures within { result < cells_of frame }
{
    (column - frame.columns.low) * frame.rows.width() + (row - frame.rows.low)
}
