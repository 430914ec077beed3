//! Edits applied to a scene.
ghost use Rattle.std.specs.Prelude.{◌≡◌, ◌*◌, IfOk, OnErr};
ghost use Rattle.scene_parts.specs.Answers.{MatchesUnlessMemory};
ghost use Rattle.scene_book.specs.Applying.{apply_of, put_of, remove_of, grid_of, own_class as own_class_of, holder, all_own as all_own_of, Leaves, lacks_memory};

use super::edits::{Edit, EditFault};
use super::grids::receivers;
use super::limits::{at_most, same_class};
use super::named::{MAX_RECEIVERS, part_class, part_name};
use super::scene::Scene;
use scene_parts::{Class, GridSpec, Name, NoMemory, Part, Receiver};
use std::alloc::Global;

impl Scene {
    /// Applies an edit and gives the part that its put replaced or its remove took out. A part put in
    /// the place of one of its name keeps that place; where one is taken out the others close up; a
    /// grid puts its receivers row by row. A refused edit changes nothing, nor does want of memory.
    #[tactic(auto, unfolding(crate::specs::Applying::apply_of))]
    pub fn apply(&mut self, alloc: Global, edit: &Edit) -> Result<Option<Part>, EditFault>
        ensures value { Leaves self.new result (apply_of edit.now self.old) }
        ensures unchanged { OnErr result (self.new ≡ self.old) }
    {
        match edit {
            Edit::Put(part) => self.apply_put(alloc, part),
            Edit::Remove(name) => self.apply_remove(name),
            Edit::Grid(grid) => self.apply_grid(alloc, grid),
            Edit::Set(setting) => {
                self.set(setting);
                Ok(None)
            }
        }
    }

    #[tactic(auto, unfolding(crate::specs::Applying::put_of))]
    fn apply_put(&mut self, alloc: Global, part: &Part) -> Result<Option<Part>, EditFault>
        ensures value { Leaves self.new result (put_of part.now self.old) }
        ensures unchanged { OnErr result (self.new ≡ self.old) }
    {
        self.own_class(part_name(part), part_class(part))?;
        self.put(alloc, part)
    }

    #[tactic(auto, unfolding(crate::specs::Applying::remove_of))]
    fn apply_remove(&mut self, name: &Name) -> Result<Option<Part>, EditFault>
        ensures value { Leaves self.new result (remove_of name.now self.old) }
        ensures unchanged { OnErr result (self.new ≡ self.old) }
    {
        match self.take(name.items())? {
            Some(part) => Ok(Some(part)),
            None => Err(EditFault::NoSuchName {
                name: copy_of(name)?,
            }),
        }
    }

    #[tactic(auto, unfolding(crate::specs::Applying::grid_of, crate::specs::Applying::put_receivers))]
    fn apply_grid(&mut self, alloc: Global, grid: &GridSpec) -> Result<Option<Part>, EditFault>
        ensures value { Leaves self.new result (grid_of grid.now self.old) }
        ensures unchanged { OnErr result (self.new ≡ self.old) }
    {
        at_most(Class::Receiver, MAX_RECEIVERS, count(grid))?;
        let receivers = receivers(alloc, grid)?;
        self.all_own(&receivers)?;
        self.put_receivers(alloc, receivers)?;
        Ok(None)
    }

    /// No name of these receivers is borne by a part of another class, or `OtherClass`.
    fn all_own(&self, receivers: &[Receiver]) -> Result<(), EditFault>
        ensures { MatchesUnlessMemory lacks_memory result (all_own_of self.now receivers.now) }
    {
        for receiver in receivers {
            self.own_class(&receiver.name, Class::Receiver)?;
        }
        Ok(())
    }

    /// No part of another class bears a name, or `OtherClass`.
    fn own_class(&self, name: &Name, class: Class) -> Result<(), EditFault>
        ensures { MatchesUnlessMemory lacks_memory result
            (own_class_of name.now class (holder self.now name.now)) }
    {
        match self.class_of_name(name.items()) {
            None => Ok(()),
            Some(holder) if same_class(class, holder) => Ok(()),
            Some(holder) => Err(EditFault::OtherClass {
                name: copy_of(name)?,
                class: holder,
            }),
        }
    }
}

fn copy_of(name: &Name) -> Result<Name, NoMemory>
    ensures { IfOk result (λ copied. copied ≡ name.now) }
{
    Ok(name.clone()?)
}

/// How many receivers a grid has.
fn count(grid: &GridSpec) -> usize
    ensures { result ≡ grid.now.columns * grid.now.rows }
{
    (grid.columns * grid.rows) as usize
}
