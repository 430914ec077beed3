//! The walk of a segment through the cells.

ghost use Rattle.std.specs.Prelude.{◌≡◌, ◌≢◌, ◌<◌, ◌≤◌};
ghost use Rattle.part_grid.specs.Cells.{from_edge, row_at as row_at_of, walk_rows as walk_rows_of, cells_meet_of};

use crate::cells::lines::{CELL, columns_between, easting, northing, rows_between};
use crate::cells::span::Span;
use scene_geom::{Pt, Side};

/// Whether the cells of a side meet the walk of the segment from `p` to `q`. A side that crosses or blocks the segment
/// has such a cell. No memory is taken.
pub fn cells_meet(side: Side, p: Pt, q: Pt) -> bool
    ensures { result ≡ cells_meet_of side p q }
{
    let columns = columns_between(p, q).common(columns_between(side.from, side.to));
    let rows = rows_between(side.from, side.to);
    for column in columns.low..columns.high + 1 {
        if rows.overlaps(walk_rows(p, q, column)) {
            return true;
        }
    }
    false
}

/// The rows of a segment while it is in a column.
pub fn walk_rows(p: Pt, q: Pt, column: usize) -> Span
    requires { column < 124 }
    ensures { result ≡ walk_rows_of p q column }
{
    let from = easting(p);
    let to = easting(q);
    if from == to {
        return rows_between(p, q);
    }
    let west = from.min(to).max(column * CELL);
    let east = from.max(to).min((column + 1) * CELL);
    Span::between(row_at(p, q, west), row_at(p, q, east))
}

/// The row of the line through two points at an easting.
fn row_at(p: Pt, q: Pt, x: usize) -> usize
    requires apart { from_edge p.x ≢ from_edge q.x }
    requires within { x ≤ 8126464 }
    ensures { result ≡ row_at_of p q x }
{
    let before = x.abs_diff(easting(p));
    let behind = x.abs_diff(easting(q));
    let width = easting(p).abs_diff(easting(q));
    (northing(p) * behind + northing(q) * before) / (width * CELL)
}
