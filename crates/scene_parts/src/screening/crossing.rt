//! Sides that cross a line of sight.
ghost use Rattle.std.specs.Prelude.{◌≡◌};
ghost use Rattle.scene_parts.specs.Crossings.{is_crossing_in, cut_of};

use crate::screening::cuts::Cut;
use crate::screening::edge::Edge;
use scene_geom::Band;

/// A side of an obstacle that crosses a line of sight: the obstacle and the side by their numbers from 0, the edge, and
/// for each band from 63 Hz on whether the obstacle is large enough to screen in it.
#[derive(Clone, Copy, Drop)]
pub struct Crossing {
    pub obstacle: u32,
    pub side: u32,
    pub edge: Edge,
    pub bands: [bool; 8],
}

impl Crossing {
    /// Whether the obstacle is large enough in a band.
    pub fn counts_in(&self, band: Band) -> bool
        ensures { result ≡ is_crossing_in band self.now }
    {
        self.bands[band.place()]
    }

    /// The crossing as a cut of the line of sight.
    pub fn cut(&self) -> Cut
        ensures { result ≡ cut_of self.now }
    {
        Cut {
            obstacle: self.obstacle,
            side: self.side,
            t: self.edge.t,
            h: self.edge.h,
            above: self.edge.above,
        }
    }
}
