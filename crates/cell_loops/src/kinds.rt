//! What is known of a cell, and which cells a family of loops bounds.

ghost use Rattle.std.specs.Prelude.{◌≡◌};
ghost use Rattle.cell_loops.specs.Plane.{is_in};

/// Whether the level in a cell surely reaches a limit.
#[derive(Clone, Copy, Debug, PartialEq, Eq)]
pub enum Cell {
    /// The whole interval of the level is at the limit or above it.
    Above,
    /// The whole interval of the level is below the limit.
    Below,
    /// Some of the interval is on either side.
    Unsure,
}

/// Which of the two sets of cells loops bound.
#[derive(Clone, Copy, Debug, PartialEq, Eq)]
pub enum Family {
    /// The cells that are above: within, it is surely as loud.
    Inner,
    /// The cells that aren't below: outside, it is surely quieter.
    Outer,
}

impl Family {
    /// Whether loops of this family bound a cell.
    pub(crate) fn bounds(self, cell: Cell) -> bool
        ensures { result ≡ is_in self cell }
    {
        match self {
            Family::Inner => cell == Cell::Above,
            Family::Outer => cell != Cell::Below,
        }
    }
}
