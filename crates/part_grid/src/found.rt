//! What a query found.
ghost use Rattle.std.specs.Prelude.{◌≡◌, [], ◌++◌, length, map, IfOk, OnOk, OnErr};
ghost use Rattle.std.specs.List.{items_where_true};
ghost use Rattle.part_grid.specs.Near.{place_of};

use crate::numbers::marks::Marks;
use crate::owned::{Owned, Place};
use std::alloc::{AllocError, Global};
use std::marker::Model;

/// The sides that a query found, with the buffers of the search: lent to one query after another, they are asked for
/// once. Contracts see it as the list of the sides.
#[derive(Debug, Drop)]
pub struct Found {
    pub(crate) marks: Marks,
    pub(crate) sides: Vec<Owned>,
}

impl Model for Found {
    ghost use Rattle.std.specs.Prelude.{List};
    ghost use Rattle.part_grid.specs.declared.owned.Owned.{Owned};

    ghost Value = { List Owned };

    ghost view = { λ f. f.sides.items };
}

impl Found {
    /// No sides.
    pub fn new(alloc: Global) -> Self
        ensures { result ≡ [] }
    {
        Found {
            marks: Marks::new(alloc),
            sides: Vec::new(alloc),
        }
    }

    /// The sides that the last query found, in the order of the index. None after a query that failed.
    pub fn sides(&self) -> &[Owned]
        ensures { result.now ≡ self.now }
    {
        self.sides.as_slice()
    }

    /// The places of these sides.
    pub(crate) fn places(&self, alloc: Global) -> Result<Vec<Place>, AllocError>
        ensures { IfOk result (λ places. places.items ≡ map place_of self.now) }
    {
        let mut places = Vec::new(alloc);
        for owned in self.sides.as_slice() {
            places.push(owned.place())?;
        }
        Ok(places)
    }
}

/// The sides whose numbers are marked, in place of what a list held. None where memory runs out.
pub(crate) fn list_marked(
    marks: &Marks,
    sides: &[Owned],
    found: &mut Vec<Owned>,
) -> Result<(), AllocError>
    requires { length marks.now ≡ length sides.now }
    ensures found { OnOk result (found.new.items ≡ items_where_true marks.now sides.now) }
    ensures none { OnErr result (found.new.items ≡ []) }
{
    found.clear();
    match gather(marks, sides, found) {
        Ok(()) => Ok(()),
        Err(error) => {
            found.clear();
            Err(error)
        }
    }
}

/// Adds the sides whose numbers are marked.
fn gather(marks: &Marks, sides: &[Owned], found: &mut Vec<Owned>) -> Result<(), AllocError>
    requires { length marks.now ≡ length sides.now }
    ensures { OnOk result (found.new.items ≡ found.old.items ++ items_where_true marks.now sides.now) }
{
    let mut number = marks.next_from(0);
    while number < sides.len() {
        found.push(sides[number])?;
        number = marks.next_from(number + 1);
    }
    Ok(())
}
