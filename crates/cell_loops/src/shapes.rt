//! Cells and loops, as lists.
use crate::corners::Corner;
use crate::kinds::Cell;
use std::marker::Model;

/// The cells of a grid, row by row. Contracts see it as the list of them.
#[derive(Drop)]
pub struct Cells {
    cells: Vec<Cell>,
}

impl Model for Cells {
    ghost use Rattle.std.specs.Prelude.{List};
    ghost use Rattle.cell_loops.specs.declared.kinds.Cell.{Cell};

    ghost Value = { List Cell };

    ghost view = { λ cells. cells.cells.items };
}

impl Cells {
    ghost use Rattle.std.specs.Prelude.{◌≡◌};

    /// The list of these cells.
    pub fn from_vec(items: Vec<Cell>) -> Self
        ensures { result ≡ items.items }
    {
        Cells { cells: items }
    }

    /// The cells in their order.
    pub fn items(&self) -> &[Cell]
        ensures { result.now ≡ self.now }
    {
        self.cells.as_slice()
    }
}

/// A closed line, told by the corners at which it turns. Contracts see it as the list of them.
#[derive(Drop)]
pub struct Loop {
    points: Vec<Corner>,
}

impl Model for Loop {
    ghost use Rattle.std.specs.Prelude.{List};
    ghost use Rattle.cell_loops.specs.declared.corners.Corner.{Corner};

    ghost Value = { List Corner };

    ghost view = { λ line. line.points.items };
}

impl Loop {
    ghost use Rattle.std.specs.Prelude.{◌≡◌};

    /// The line round these points.
    pub fn from_vec(items: Vec<Corner>) -> Self
        ensures { result ≡ items.items }
    {
        Loop { points: items }
    }

    /// The corners at which it turns, in their order.
    pub fn items(&self) -> &[Corner]
        ensures { result.now ≡ self.now }
    {
        self.points.as_slice()
    }
}

/// Loops in their order. Contracts see it as the list of them.
#[derive(Drop)]
pub struct Loops {
    loops: Vec<Loop>,
}

impl Model for Loops {
    ghost use Rattle.std.specs.Prelude.{List};
    ghost use Rattle.cell_loops.specs.declared.corners.Corner.{Corner};

    ghost Value = { List (List Corner) };

    ghost view = { λ loops. loops.loops.items };
}

impl Loops {
    ghost use Rattle.std.specs.Prelude.{◌≡◌};

    /// The list of these loops.
    pub fn from_vec(items: Vec<Loop>) -> Self
        ensures { result ≡ items.items }
    {
        Loops { loops: items }
    }

    /// The loops in their order.
    pub fn items(&self) -> &[Loop]
        ensures { result.now ≡ self.now }
    {
        self.loops.as_slice()
    }
}
