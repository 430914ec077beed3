//! Sides with the numbers of their obstacles.

use scene_geom::Side;

/// A side of an obstacle, with the number of the obstacle and the side's number in it.
#[derive(Clone, Copy, Debug, PartialEq, Eq)]
pub struct Owned {
    pub obstacle: u32,
    pub index: u32,
    pub side: Side,
}

/// Which side of which obstacle.
#[derive(Clone, Copy, Debug, PartialEq, Eq)]
pub struct Place {
    pub obstacle: u32,
    pub index: u32,
}

impl Owned {
    ghost use Rattle.std.specs.Prelude.{◌≡◌};
    ghost use Rattle.part_grid.specs.Near.{place_of};

    /// The numbers of the side.
    pub fn place(self) -> Place
        ensures { result ≡ place_of self }
    {
        Place {
            obstacle: self.obstacle,
            index: self.index,
        }
    }
}
