//! The columns and rows of cells in which points lie.

ghost use Rattle.std.specs.Prelude.{◌≡◌, ◌<◌};
ghost use Rattle.part_grid.specs.Cells.{from_edge};
ghost use Rattle.part_grid.specs.Cells.{columns_between as columns_between_of, rows_between as rows_between_of};

use crate::cells::span::Span;
use scene_geom::Pt;

/// The width of a cell, in mm.
pub const CELL: usize = 65_536;

/// The outer edge of the lowest line of cells in the plan, in mm from the origin.
pub const EDGE: i64 = 4_063_232;

/// How far east of the outer edge of the first column a point lies, in mm.
pub fn easting(p: Pt) -> usize
    ensures value { result ≡ from_edge p.x }
    ensures within { result < 8126464 }
{
    (i64::from(p.x) + EDGE) as usize
}

/// How far north of the outer edge of the first row a point lies, in mm.
pub fn northing(p: Pt) -> usize
    ensures value { result ≡ from_edge p.y }
    ensures within { result < 8126464 }
{
    (i64::from(p.y) + EDGE) as usize
}

/// The columns from one point to another.
pub fn columns_between(p: Pt, q: Pt) -> Span
    ensures value { result ≡ columns_between_of p q }
    ensures within { result.high < 124 }
{
    Span::between(easting(p) / CELL, easting(q) / CELL)
}

/// The rows from one point to another.
pub fn rows_between(p: Pt, q: Pt) -> Span
    ensures value { result ≡ rows_between_of p q }
    ensures within { result.high < 124 }
{
    Span::between(northing(p) / CELL, northing(q) / CELL)
}
