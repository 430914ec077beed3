//! Where an outline crosses the line of a path.

ghost use Rattle.std.specs.Prelude.{◌<◌, ◌^◌, unsigned_abs};

use crate::extents::extent::Extents;

/// What the sides of an outline come to that cross the line of a direct path.
#[derive(Clone, Copy, Drop)]
pub(crate) struct Crossed {
    /// Whether one of them crosses the path itself.
    pub between: bool,
    /// How often they wind round the source.
    pub winding: i64,
    /// How much of each region the outline holds, with the other sign where its corners go round to the right.
    pub lengths: Extents,
    pub ghost winding_fits: { unsigned_abs winding < 2 ^ 62 },
}
