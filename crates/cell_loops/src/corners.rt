//! Corners, edges, and how a boundary goes on at a corner.
ghost use Rattle.std.specs.Prelude.{◌≡◌, ◌≤◌};
ghost use Rattle.cell_loops.specs.Turning.{left_of, right_of, leaves, reaches, turn, came, same_way};
ghost use Rattle.cell_loops.specs.Boundary.{step_of};
ghost use Rattle.cell_loops.specs.Steps.{most_side};

/// A corner of cells: cell (c, r) has the corners (c, r) to (c + 1, r + 1).
#[derive(Clone, Copy, Debug, PartialEq, Eq)]
pub struct Corner {
    pub x: u32,
    pub y: u32,
}

/// The way in which a unit step leads.
#[derive(Clone, Copy)]
pub enum Way {
    East,
    North,
    West,
    South,
}

/// A unit step from a corner.
#[derive(Clone, Copy)]
pub struct Edge {
    pub from: Corner,
    pub way: Way,
}

/// Which of the four cells round a corner are in a set.
#[derive(Clone, Copy)]
pub struct Around {
    pub northeast: bool,
    pub northwest: bool,
    pub southwest: bool,
    pub southeast: bool,
}

impl Way {
    fn left(self) -> Way
        ensures { result ≡ left_of self }
    {
        match self {
            Way::East => Way::North,
            Way::North => Way::West,
            Way::West => Way::South,
            Way::South => Way::East,
        }
    }

    fn right(self) -> Way
        ensures { result ≡ right_of self }
    {
        match self {
            Way::East => Way::South,
            Way::North => Way::East,
            Way::West => Way::North,
            Way::South => Way::West,
        }
    }

    /// Whether two ways are one.
    pub fn is(self, other: Way) -> bool
        ensures { result ≡ same_way self other }
    {
        self as u8 == other as u8
    }
}

impl Edge {
    /// Where a step ends. None leads to the west or the south from where x or y is 0.
    pub fn end(self) -> Corner
        requires x { self.from.x ≤ most_side }
        requires y { self.from.y ≤ most_side }
        ensures { result ≡ step_of self.from self.way }
    {
        let Corner { x, y } = self.from;
        match self.way {
            Way::East => Corner { x: x + 1, y },
            Way::North => Corner { x, y: y + 1 },
            Way::West => Corner {
                x: x.saturating_sub(1),
                y,
            },
            Way::South => Corner {
                x,
                y: y.saturating_sub(1),
            },
        }
    }
}

impl Around {
    /// Whether an edge leaves the corner this way.
    pub fn leaves(self, way: Way) -> bool
        ensures { result ≡ leaves self way }
    {
        match way {
            Way::East => self.northeast && !self.southeast,
            Way::North => self.northwest && !self.northeast,
            Way::West => self.southwest && !self.northwest,
            Way::South => self.southeast && !self.southwest,
        }
    }

    /// Whether an edge that goes this way ends at the corner.
    fn reaches(self, way: Way) -> bool
        ensures { result ≡ reaches self way }
    {
        match way {
            Way::East => self.northwest && !self.southwest,
            Way::North => self.southwest && !self.southeast,
            Way::West => self.southeast && !self.northeast,
            Way::South => self.northeast && !self.northwest,
        }
    }

    /// How a loop that comes this way goes on.
    pub fn turn(self, way: Way) -> Way
        ensures { result ≡ turn self way }
    {
        if self.leaves(way.left()) {
            way.left()
        } else if self.leaves(way) {
            way
        } else {
            way.right()
        }
    }

    /// How a loop that leaves this way came.
    pub fn came(self, way: Way) -> Way
        ensures { result ≡ came self way }
    {
        if self.reaches(way.right()) {
            way.right()
        } else if self.reaches(way) {
            way
        } else {
            way.left()
        }
    }
}
