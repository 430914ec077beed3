//! The numbers that are entered in each cell.
ghost use Rattle.std.specs.Prelude.{◌≡◌, ◌<◌, ◌||◌, ℕ, [], ◌∷◌, ◌==◌, false, length, replicate};
ghost use Rattle.std.specs.Prelude.{slice_set, slice_index_or, IfOk, OnOk};
ghost use Rattle.std.specs.List.{list_any};

use crate::numbers::marks::Marks;
use std::alloc::{AllocError, Global};
use std::marker::Model;

/// A number that is entered in a cell, and where the one before it stands: 0 for none, else 1 more than its place.
#[derive(Clone, Copy, Debug)]
pub struct Entry {
    pub number: usize,
    pub before: usize,
}

/// For each of some cells the numbers that are entered there. Contracts see it as these lists, the newest number first.
#[derive(Debug, Drop)]
pub struct Register {
    newest: Vec<usize>,
    entries: Vec<Entry>,
}

impl Model for Register {
    ghost use Rattle.std.specs.Prelude.{List, ℕ};
    ghost use Rattle.part_grid.specs.inner.Register.{lists_of, IsRegister};

    ghost Value = { List (List ℕ) };

    ghost view = { λ r. lists_of r.newest.items r.entries.items };

    ghost invariant = { λ r. IsRegister r.newest.items r.entries.items };
}

impl Register {
    /// As many cells as `count` says, with nothing entered.
    pub fn new(alloc: Global, count: usize) -> Result<Self, AllocError>
        ensures { IfOk result (λ register. register ≡ replicate count []) }
    {
        let mut newest = Vec::with_capacity(alloc, count)?;
        for _ in 0..count {
            newest.push(0)?;
        }
        Ok(Register {
            newest,
            entries: Vec::new(alloc),
        })
    }

    /// Enters a number in a cell.
    pub fn enter(&mut self, cell: usize, number: usize) -> Result<(), AllocError>
        requires { cell < length self.old }
        ensures { OnOk result (self.new
            ≡ slice_set self.old cell (number ∷ slice_index_or self.old cell [])) }
    {
        let before = self.newest[cell];
        self.entries.push(Entry { number, before })?;
        self.newest[cell] = self.entries.len();
        Ok(())
    }

    /// Marks the numbers that are entered in a cell.
    pub fn mark(&self, cell: usize, marks: &mut Marks)
        requires { cell < length self.now }
        ensures count { length marks.new ≡ length marks.old }
        ensures marks { (i : ℕ) → i < length marks.old → slice_index_or marks.new i false
            ≡ (slice_index_or marks.old i false || list_any (λ n. n == i) (slice_index_or self.now cell [])) }
    {
        let mut place = self.newest[cell];
        while place != 0 {
            let entry = self.entries[place - 1];
            marks.mark(entry.number);
            place = entry.before;
        }
    }
}
