//! Things of one class in the order of insertion, found by name without a scan.
ghost use Rattle.std.specs.Prelude.{◌≡◌, ◌≤◌, List, [], ℕ, ◌+◌, ◌<◌, ◌^◌, length, Some, IfOk, IfNone, OnOk, OnErr, is_some};
ghost use Rattle.std.specs.Option.{option_copied};
ghost use Rattle.scene_parts.specs.declared.parts.Class.{Class as ClassWord};
ghost use Rattle.scene_book.specs.Book.{Slot};
ghost use Rattle.scene_book.specs.Applying.{room_in};
ghost use Rattle.scene_book.specs.Lists.{named, place_of, put_in, take_out, put_all, AreApart};

use super::edits::EditFault;
use super::filing::{filed, insert_all, key_of};
use super::limits::at_most;
use indexmap::IndexMap;
use scene_parts::{Class, NoMemory, Part};
use std::alloc::{AllocError, Global};
use std::marker::Model;

/// What bears a name and stands in a list of its class.
pub trait Named: Drop {
    ghost slot: { Slot Self };

    ghost CLASS: { ClassWord };

    ghost MOST: { ℕ };

    /// The class that `Full` names where there are too many.
    const CLASS: Class;

    /// How many there may be.
    const MOST: u32;

    /// The bytes of the name.
    fn name(&self) -> &[u8]
        ensures { result.now ≡ slot.name_of self.now };

    /// The same again.
    fn copy(&self) -> Result<Self, NoMemory>
        ensures { IfOk result (λ copied. copied ≡ self.now) };

    /// The part that it is.
    fn into_part(self) -> Part
        ensures { result ≡ slot.part_of self };
}

/// A copy of a thing, as the part that it is.
pub fn part_like<T: Named>(thing: &T) -> Result<Option<Part>, NoMemory>
    ensures { IfOk result (λ part. part ≡ Some (T.slot.part_of thing.now)) }
{
    Ok(Some(thing.copy()?.into_part()))
}

/// Things in the order of insertion, each under its name. Contracts see it as the list of them.
#[derive(Drop)]
pub struct Register<T: Named> {
    things: IndexMap<Vec<u8>, T>,
}

impl<T: Named> Model for Register<T> {
    ghost use Rattle.std.specs.Prelude.{List};
    ghost use Rattle.std.specs.Coded.{coded_list};
    ghost use Rattle.indexmap.specs.IndexMap.{values};
    ghost use Rattle.scene_book.specs.inner.Filed.{AreFiled};

    ghost Value = { List T };

    ghost coded = { coded_list T.code };

    ghost view = { λ register. values register.things };

    ghost invariant = { λ register. AreFiled T.slot.name_of register.things.entries };
}

impl<T: Named> Register<T> {
    /// A register of nothing.
    pub fn new(alloc: Global) -> Self
        ensures { result ≡ [] }
    {
        Register {
            things: IndexMap::new(alloc),
        }
    }

    /// A register of nothing, with room for so many things.
    fn with_room(alloc: Global, count: usize) -> Result<Self, NoMemory>
        ensures { IfOk result (λ made. made ≡ []) }
    {
        Ok(Register {
            things: IndexMap::with_capacity(alloc, count)?,
        })
    }

    /// The things, in order.
    pub fn items(&self) -> &[T]
        ensures value { result.now ≡ self.now }
        ensures apart { AreApart T.slot.name_of self.now }
    {
        let entries = self.things.as_slice();
        entries.values().as_slice()
    }

    /// The thing of a name.
    pub fn get(&self, name: &[u8]) -> Option<&T>
        ensures { option_copied result ≡ named T.slot.name_of name.now self.now }
    {
        self.things.get(name)
    }

    /// The place of the thing of a name.
    pub fn place(&self, name: &[u8]) -> Option<usize>
        ensures { result ≡ place_of T.slot.name_of name.now self.now }
    {
        self.things.get_index_of(name)
    }

    /// Whether there are few enough once a thing is put, else `Full`.
    pub fn check_room(&self, new: &T) -> Result<(), EditFault>
        ensures value { result ≡ room_in T.CLASS T.MOST (put_in T.slot.name_of new.now self.now) }
        ensures room { OnOk result (length (put_in T.slot.name_of new.now self.now) ≤ T.MOST) }
    {
        at_most(T::CLASS, T::MOST, self.len_with(new))
    }

    /// The same of things that are put one after another, whose names are apart.
    pub fn check_room_for_all(&self, news: &[T]) -> Result<(), EditFault>
        requires apart { AreApart T.slot.name_of news.now }
        requires few { length news.now < 2 ^ 63 }
        ensures value { result ≡ room_in T.CLASS T.MOST (put_all T.slot.name_of news.now self.now) }
        ensures room { OnOk result (length (put_all T.slot.name_of news.now self.now) ≤ T.MOST) }
    {
        at_most(T::CLASS, T::MOST, self.len_with_all(news))
    }

    /// How many things there are once a thing is put.
    #[tactic(auto, using(crate::proofs::ListLemmas::length_put_in))]
    fn len_with(&self, new: &T) -> usize
        ensures { result ≡ length (put_in T.slot.name_of new.now self.now) }
    {
        if self.has(new.name()) {
            self.len()
        } else {
            self.len() + 1
        }
    }

    /// How many things there are once these are put: as many as before, and those whose names are new.
    fn len_with_all(&self, news: &[T]) -> usize
        requires apart { AreApart T.slot.name_of news.now }
        requires few { length news.now < 2 ^ 63 }
        ensures { result ≡ length (put_all T.slot.name_of news.now self.now) }
    {
        let mut count = self.len();
        for new in news {
            if !self.has(new.name()) {
                count += 1;
            }
        }
        count
    }

    fn len(&self) -> usize
        ensures value { result ≡ length self.now }
        ensures fits { result < 2 ^ 63 }
    {
        self.things.len()
    }

    /// Whether a thing bears a name.
    pub fn has(&self, name: &[u8]) -> bool
        ensures { result ≡ is_some (named T.slot.name_of name.now self.now) }
    {
        self.get(name).is_some()
    }

    /// Puts a copy of a thing in the place of the one of its name, else at the end, and gives the one that was there.
    pub fn put(&mut self, alloc: Global, thing: &T) -> Result<Option<T>, NoMemory>
        ensures old { IfOk result (λ old. old
            ≡ named T.slot.name_of (T.slot.name_of thing.now) self.old) }
        ensures new { OnOk result (self.new ≡ put_in T.slot.name_of thing.now self.old) }
        ensures apart { OnOk result (AreApart T.slot.name_of self.new) }
        ensures err { OnErr result (self.new ≡ self.old) }
    {
        let key = key_of(alloc, thing)?;
        let thing = thing.copy()?;
        self.insert(key, thing)
    }

    /// Puts a thing under its name.
    fn insert(&mut self, key: Vec<u8>, thing: T) -> Result<Option<T>, NoMemory>
        requires { key.items ≡ T.slot.name_of thing }
        ensures old { IfOk result (λ old. old
            ≡ named T.slot.name_of (T.slot.name_of thing) self.old) }
        ensures new { OnOk result (self.new ≡ put_in T.slot.name_of thing self.old) }
        ensures apart { OnOk result (AreApart T.slot.name_of self.new) }
        ensures err { OnErr result (self.new ≡ self.old) }
    {
        Ok(self.things.insert(key, thing)?)
    }

    /// Puts these things one after another. There is room for all before the first is put.
    pub fn put_all(&mut self, alloc: Global, news: Vec<T>) -> Result<(), NoMemory>
        ensures new { OnOk result (self.new ≡ put_all T.slot.name_of news.items self.old) }
        ensures apart { OnOk result (AreApart T.slot.name_of self.new) }
        ensures err { OnErr result (self.new ≡ self.old) }
    {
        let entries = filed(alloc, news)?;
        self.things.reserve(entries.len())?;
        insert_all(&mut self.things, entries);
        Ok(())
    }

    /// Takes out the thing of a name; the others close up.
    pub fn take(&mut self, name: &[u8]) -> Option<T>
        ensures value { result ≡ named T.slot.name_of name.now self.old }
        ensures left { self.new ≡ take_out T.slot.name_of name.now self.old }
        ensures apart { AreApart T.slot.name_of self.new }
        ensures fewer { length self.new ≤ length self.old }
        ensures absent { IfNone result (self.new ≡ self.old) }
    {
        self.things.shift_remove(name)
    }

    /// The same things again.
    pub fn copy(&self, alloc: Global) -> Result<Self, NoMemory>
        ensures { IfOk result (λ copied. copied ≡ self.now) }
    {
        let mut copied = Register::with_room(alloc, self.len())?;
        for thing in self.items() {
            let _none = copied.put(alloc, thing)?;
        }
        Ok(copied)
    }
}

impl<T: Named> Clone for Register<T> {
    ghost use Rattle.std.specs.Prelude.{◌≡◌};

    ghost is_clone = { λ register copied. copied ≡ register };

    fn clone(&self) -> Result<Self, AllocError> {
        match self.copy(*self.things.allocator()) {
            Ok(copied) => Ok(copied),
            Err(NoMemory) => Err(AllocError),
        }
    }
}
