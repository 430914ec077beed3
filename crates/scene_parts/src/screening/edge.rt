//! Edges that a path passes.

use scene_geom::{Dir, Frac, Side};

/// The top edge of a side of an obstacle that a path passes (ISO 9613-2, 7.4).
#[derive(Clone, Copy, Drop)]
pub struct Edge {
    /// The place on the path, as a fraction of its plan length from the source.
    pub t: Frac,
    pub side: Side,
    /// The direction of the path where the edge lies.
    pub dir: Dir,
    /// The height of the edge above ground, in mm.
    pub h: u32,
    /// Whether it rises above the line of sight.
    pub above: bool,
}
