//! The cells of a way along a direction.

ghost use Rattle.std.specs.Prelude.{◌≡◌, ◌≢◌, ◌+◌, ◌<◌, ◌≤◌, ◌<ℤ◌, pos, unsigned_abs, IfSome};
ghost use Rattle.scene_geom.specs.Plan.{InPlan};
ghost use Rattle.scene_geom.specs.Direction.{FitsDirection};
ghost use Rattle.scene_geom.specs.Fraction.{FitsEnd, over};
ghost use Rattle.part_grid.specs.Ways.{floor_of, northing_at as northing_at_of, rows_in as rows_in_of};
ghost use Rattle.part_grid.specs.Ways.{end_at as end_at_of, nearest_line as nearest_line_of, row_into as row_into_of};
ghost use Rattle.part_grid.specs.Ways.{way_columns as way_columns_of, way_rows as way_rows_of, west_of};

use crate::cells::lines::{CELL, EDGE, easting, northing};
use crate::cells::span::Span;
use scene_geom::{Dir, Frac, Pt};

/// The greatest coordinate of the plan, in mm.
const MOST: i128 = 4_000_000;

/// All columns of a way.
pub fn way_columns(from: Pt, dir: Dir, end: Frac) -> Span
    requires dir { FitsDirection dir }
    requires end { FitsEnd end }
    ensures { result ≡ way_columns_of from dir end }
{
    let last = nearest_line(end_at(from.x, dir.x, dir.w, end));
    Span::between(easting(from) / CELL, last)
}

/// All rows of a way.
pub fn way_rows(from: Pt, dir: Dir, end: Frac) -> Span
    requires dir { FitsDirection dir }
    requires end { FitsEnd end }
    ensures { result ≡ way_rows_of from dir end }
{
    let last = nearest_line(end_at(from.y, dir.y, dir.w, end));
    Span::between(northing(from) / CELL, last)
}

/// The rows of a way while it is in a column, of all rows that it has, and the row in which it leaves the column to the
/// east. `entered` is the row in which it came into the column from the west, where that is known. A vertical way has all
/// its rows in its column, and no such row.
pub fn rows_in(
    from: Pt,
    dir: Dir,
    rows: Span,
    column: usize,
    entered: Option<usize>,
) -> (Span, Option<usize>)
    requires dir { FitsDirection dir }
    requires column { column < 124 }
    requires entered { IfSome entered (λ row. row ≡ row_into_of from dir rows column) }
    ensures rows { result.0 ≡ rows_in_of from dir rows column }
    ensures left { IfSome result.1 (λ row. row ≡ row_into_of from dir rows (column + 1)) }
{
    if dir.x == 0 {
        return (rows, None);
    }
    let west = match entered {
        Some(row) => row,
        None => row_into(from, dir, rows, column),
    };
    let east = row_into(from, dir, rows, column + 1);
    (Span::between(west, east), Some(east))
}

/// The row in which a way comes into a column from the west, or that of the way's nearest end.
fn row_into(from: Pt, dir: Dir, rows: Span, column: usize) -> usize
    requires slanted { dir.x ≢ pos 0 }
    requires dir { FitsDirection dir }
    requires column { column ≤ 124 }
    ensures { result ≡ row_into_of from dir rows column }
{
    let west = (column * CELL) as i64 - EDGE;
    let line = nearest_line(northing_at(from, dir, west));
    rows.low.max(rows.high.min(line))
}

/// The northing of the line of a way at an easting, rounded down.
fn northing_at(from: Pt, dir: Dir, x: i64) -> i128
    requires slanted { dir.x ≢ pos 0 }
    requires dir { FitsDirection dir }
    requires x { unsigned_abs x ≤ 4063232 }
    ensures value { result ≡ northing_at_of from dir x }
    ensures within { unsigned_abs result ≤ 10000000000000000000000004000000 }
{
    let ahead = i128::from(x) - i128::from(from.x);
    i128::from(from.y) + floor(ahead * dir.y, dir.x)
}

/// One coordinate, in mm, of the end of a way, rounded down: from that of its start, the same component of its direction
/// and the direction's divisor.
pub fn end_at(start: i32, component: i128, divisor: i128, end: Frac) -> i128
    requires start { InPlan start }
    requires component { unsigned_abs component ≤ 2110000000000000000 }
    requires some { pos 0 <ℤ divisor }
    requires divisor { unsigned_abs divisor ≤ 68718952449 }
    requires end { FitsEnd end }
    ensures value { result ≡ end_at_of start component divisor end }
    ensures within { unsigned_abs result ≤ 10000000000000000000000004000000 }
{
    i128::from(start) + floor(end.n * component, end.d * divisor)
}

/// The greatest whole number that isn't above `n / d`.
fn floor(n: i128, d: i128) -> i128
    requires divides { d ≢ pos 0 }
    requires n { unsigned_abs n ≤ 10000000000000000000000000000000 }
    requires d { unsigned_abs d ≤ 10000000000000000000000000000000 }
    ensures value { result ≡ floor_of (over n d) }
    ensures within { unsigned_abs result ≤ 10000000000000000000000000000000 }
{
    if d < 0 {
        (-n).div_euclid(-d)
    } else {
        n.div_euclid(d)
    }
}

/// The line of cells of a coordinate, or of the edge of the plan that is nearest to it.
fn nearest_line(z: i128) -> usize
    ensures { result ≡ nearest_line_of z }
{
    let inside = z.min(MOST).max(-MOST);
    (inside as i64 + EDGE) as usize / CELL
}
