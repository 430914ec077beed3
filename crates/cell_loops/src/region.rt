//! A set of cells, and what its boundary does at a corner.
use crate::corners::{Around, Corner, Edge};
use crate::kinds::{Cell, Family};
use std::marker::Model;

/// The cells of a grid that a family of loops bounds. Contracts see it as the set of them.
#[derive(Drop)]
pub struct Region<'a> {
    columns: u32,
    rows: u32,
    cells: &'a [Cell],
    family: Family,
}

impl<'a> Model for Region<'a> {
    ghost use Rattle.cell_loops.specs.Plane.{Plane, plane_of};
    ghost use Rattle.cell_loops.specs.Steps.{IsGrid};

    ghost Value = { Plane };

    ghost view = { λ r. plane_of r.columns r.rows r.cells.now r.family };

    ghost invariant = { λ r. IsGrid r.columns r.rows r.cells.now };
}

impl<'a> Region<'a> {
    ghost use Rattle.std.specs.Prelude.{◌≡◌, ◌+◌, ◌≤◌, true};
    ghost use Rattle.cell_loops.specs.Plane.{plane_of, holds, around};
    ghost use Rattle.cell_loops.specs.Boundary.{bounds, next_of, turns_at, step_count};
    ghost use Rattle.cell_loops.specs.Steps.{IsGrid, most_side};
    ghost use Rattle.cell_loops.specs.inner.Steps.{IsSmall, IsOn, place_of};

    /// The cells of a grid that a family bounds.
    pub fn new(columns: u32, rows: u32, cells: &'a [Cell], family: Family) -> Self
        requires { IsGrid columns rows cells.now }
        ensures { result ≡ plane_of columns rows cells.now family }
    {
        Region {
            columns,
            rows,
            cells,
            family,
        }
    }

    /// How many columns there are.
    pub fn columns(&self) -> u32
        ensures value { result ≡ self.now.columns }
        ensures few { result ≤ most_side }
    {
        self.columns
    }

    /// How many rows there are.
    pub fn rows(&self) -> u32
        ensures value { result ≡ self.now.rows }
        ensures few { result ≤ most_side }
    {
        self.rows
    }

    /// How many unit steps there are.
    pub fn step_count(&self) -> usize
        ensures { result ≡ step_count self.now }
    {
        4 * ((self.columns as usize + 1) * (self.rows as usize + 1))
    }

    /// Whether a step is an edge of the boundary.
    #[tactic(auto, unfolding(crate::specs::Boundary::bounds))]
    pub fn bounds(&self, edge: Edge) -> bool
        ensures { result ≡ bounds self.now edge }
    {
        self.around(edge.from).leaves(edge.way)
    }

    /// The edge after an edge.
    #[tactic(auto, unfolding(crate::specs::Boundary::next_of))]
    pub fn next(&self, edge: Edge) -> Edge
        requires small { IsSmall self.now }
        requires bounds { bounds self.now edge ≡ true }
        ensures { result ≡ next_of self.now edge }
    {
        let from = edge.end();
        let way = self.around(from).turn(edge.way);
        Edge { from, way }
    }

    /// Whether a loop turns where an edge of it begins.
    #[tactic(auto, unfolding(crate::specs::Boundary::came_by))]
    pub fn turns_at(&self, edge: Edge) -> bool
        ensures { result ≡ turns_at self.now edge }
    {
        !self.around(edge.from).came(edge.way).is(edge.way)
    }

    /// The place of a step among all of them.
    pub fn place(&self, edge: Edge) -> usize
        requires { IsOn self.now edge.from }
        ensures { result ≡ place_of self.now edge }
    {
        let corner = edge.from.y as usize * (self.columns as usize + 1) + edge.from.x as usize;
        4 * corner + edge.way as usize
    }

    /// The four cells round a corner.
    #[tactic(auto, using(crate::proofs::Outside::none_west, crate::proofs::Outside::none_south), unfolding(crate::specs::Plane::around))]
    fn around(&self, corner: Corner) -> Around
        ensures { result ≡ around self.now corner }
    {
        let Corner { x, y } = corner;
        Around {
            northeast: self.has(x, y),
            northwest: x > 0 && self.has(x - 1, y),
            southwest: x > 0 && y > 0 && self.has(x - 1, y - 1),
            southeast: y > 0 && self.has(x, y - 1),
        }
    }

    /// Whether the cell of a column and a row is in the set.
    #[tactic(auto, unfolding(crate::specs::Plane::holds))]
    fn has(&self, column: u32, row: u32) -> bool
        ensures { result ≡ holds self.now (column + 1) (row + 1) }
    {
        if column >= self.columns || row >= self.rows {
            return false;
        }
        let place = row as usize * self.columns as usize + column as usize;
        self.family.bounds(self.cells[place])
    }
}
