//! The legs by which a path leads.

use scene_geom::{Dir, Frac};

/// The legs of a path in plan.
#[derive(Clone, Copy, Drop)]
pub enum Legs {
    /// The direct path: its direction from the source, in which the receiver lies at the place 1.
    One(Dir),
    /// A path by way of a reflecting wall (ISO 9613-2, 7.5): the direction from the source to the wall, the direction
    /// from the receiver to the wall, and the fraction `p` of the path at which it meets the wall. So the first leg ends
    /// at the place `p` and the second at `1 - p`.
    Two(Dir, Dir, Frac),
}
