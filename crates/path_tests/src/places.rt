//! Places in plan.
use scene_geom::Pt;

/// The greatest coordinate.
pub(crate) const END: i64 = 4_000_000;

/// The place with these coordinates, in mm.
pub(crate) fn at((x, y): (i64, i64)) -> Pt {
    Pt::new(x.clamp(-END, END), y.clamp(-END, END))
}
