//! A path as the legs by which it leads, with its regions as places on them.

ghost use Rattle.std.specs.Option.{ForSome};
ghost use Rattle.scene_geom.specs.Direction.{FitsDirection};
ghost use Rattle.scene_geom.specs.Fraction.{FitsEnd};
ghost use Rattle.term_ground.specs.inner.Extents.{AreSections};

use crate::extents::extent::Sections;
use crate::legs::stretch::Stretches;
use scene_geom::{Dir, Frac, Pt};

/// A leg of a path: from a point along a direction up to an end.
#[derive(Clone, Copy, Drop)]
pub(crate) struct Leg {
    pub start: Pt,
    pub dir: Dir,
    pub end: Frac,
    pub stretches: Stretches,
    /// The same in 64 bits, where these hold them.
    pub sections: Option<Sections>,
    pub ghost dir_fits: { FitsDirection dir },
    pub ghost end_fits: { FitsEnd end },
    pub ghost sections_are: { ForSome sections (λ found. AreSections found stretches) },
}

/// A path by its legs.
#[derive(Clone, Copy, Drop)]
pub(crate) struct Route {
    pub stretches: Stretches,
    pub first: Leg,
    /// The leg from the receiver to the wall, where the path leads by way of one.
    pub second: Option<Leg>,
}
