//! A register that copies of a scene share until one of them changes it.
ghost use Rattle.std.specs.Prelude.{◌≡◌, ◌≤◌, [], ◌<◌, ◌^◌, length, Ok, Err, IfOk, IfErr, IfNone, OnOk, OnErr, is_some, option_map};
ghost use Rattle.std.specs.Option.{option_copied};
ghost use Rattle.scene_parts.specs.Answers.{Unless};
ghost use Rattle.scene_book.specs.Applying.{room_in, lacks_memory};
ghost use Rattle.scene_book.specs.Lists.{named, place_of, put_in, take_out, put_all, AreApart};

use super::edits::EditFault;
use super::limits::at_most;
use super::register::{Named, Register};
use scene_parts::{NoMemory, Part};
use std::alloc::Global;
use std::marker::Model;
use std::sync::Arc;

/// A register that may have several owners, or none yet while nothing was put. One that changes it gets a copy of its own
/// first, where it has others. Contracts see it as the list of things.
#[derive(Drop)]
pub struct Shared<T: Named> {
    register: Option<Arc<Register<T>>>,
}

impl<T: Named> Model for Shared<T> {
    ghost use Rattle.std.specs.Prelude.{List, []};
    ghost use Rattle.std.specs.Coded.{coded_list};
    ghost use Rattle.std.specs.Option.{option_map_or};

    ghost Value = { List T };

    ghost coded = { coded_list T.code };

    ghost view = { λ shared. option_map_or (λ register. register.value) shared.register [] };
}

impl<T: Named> Shared<T> {
    /// A register of nothing.
    pub fn new() -> Self
        ensures { result ≡ [] }
    {
        Shared { register: None }
    }

    /// The things, in order.
    pub fn items(&self) -> &[T]
        ensures value { result.now ≡ self.now }
        ensures apart { AreApart T.slot.name_of self.now }
    {
        match &self.register {
            Some(register) => register.items(),
            None => &[],
        }
    }

    /// The thing of a name.
    pub fn get(&self, name: &[u8]) -> Option<&T>
        ensures { option_copied result ≡ named T.slot.name_of name.now self.now }
    {
        match &self.register {
            Some(register) => register.get(name),
            None => None,
        }
    }

    /// The place of the thing of a name.
    pub fn place(&self, name: &[u8]) -> Option<usize>
        ensures { result ≡ place_of T.slot.name_of name.now self.now }
    {
        match &self.register {
            Some(register) => register.place(name),
            None => None,
        }
    }

    /// Whether a thing bears a name.
    pub fn has(&self, name: &[u8]) -> bool
        ensures { result ≡ is_some (named T.slot.name_of name.now self.now) }
    {
        self.get(name).is_some()
    }

    /// Whether there are few enough once a thing is put, else `Full`.
    pub fn check_room(&self, new: &T) -> Result<(), EditFault>
        ensures value { result ≡ room_in T.CLASS T.MOST (put_in T.slot.name_of new.now self.now) }
        ensures room { OnOk result (length (put_in T.slot.name_of new.now self.now) ≤ T.MOST) }
    {
        match &self.register {
            Some(register) => register.check_room(new),
            None => at_most(T::CLASS, T::MOST, 1),
        }
    }

    /// The same of things that are put one after another, whose names are apart.
    pub fn check_room_for_all(&self, news: &[T]) -> Result<(), EditFault>
        requires apart { AreApart T.slot.name_of news.now }
        requires few { length news.now < 2 ^ 63 }
        ensures value { result ≡ room_in T.CLASS T.MOST (put_all T.slot.name_of news.now self.now) }
        ensures room { OnOk result (length (put_all T.slot.name_of news.now self.now) ≤ T.MOST) }
    {
        match &self.register {
            Some(register) => register.check_room_for_all(news),
            None => at_most(T::CLASS, T::MOST, news.len()),
        }
    }

    /// Puts a copy of a thing in the place of the one of its name, else at the end, and gives the one that was there.
    pub fn put(&mut self, alloc: Global, thing: &T) -> Result<Option<T>, NoMemory>
        ensures old { IfOk result (λ old. old
            ≡ named T.slot.name_of (T.slot.name_of thing.now) self.old) }
        ensures new { OnOk result (self.new ≡ put_in T.slot.name_of thing.now self.old) }
        ensures apart { OnOk result (AreApart T.slot.name_of self.new) }
        ensures err { OnErr result (self.new ≡ self.old) }
    {
        let Some(register) = &mut self.register else {
            let mut register = Register::new(alloc);
            let old = register.put(alloc, thing)?;
            self.register = Some(Arc::new(alloc, register)?);
            return Ok(old);
        };
        Arc::make_mut(register)?.put(alloc, thing)
    }

    /// Puts a copy of a thing where there is room for it, else `Full`, and gives the part of its name that was there.
    pub fn put_where_room(&mut self, alloc: Global, thing: &T) -> Result<Option<Part>, EditFault>
        ensures fits { OnOk result
            (room_in T.CLASS T.MOST (put_in T.slot.name_of thing.now self.old) ≡ Ok tt) }
        ensures full { IfErr result (λ fault. Unless (lacks_memory fault)
            (room_in T.CLASS T.MOST (put_in T.slot.name_of thing.now self.old) ≡ Err fault)) }
        ensures old { IfOk result (λ old. old
            ≡ option_map T.slot.part_of
            (named T.slot.name_of (T.slot.name_of thing.now) self.old)) }
        ensures new { OnOk result (self.new ≡ put_in T.slot.name_of thing.now self.old) }
        ensures room { length self.old ≤ T.MOST → length self.new ≤ T.MOST }
        ensures apart { AreApart T.slot.name_of self.old → AreApart T.slot.name_of self.new }
        ensures err { OnErr result (self.new ≡ self.old) }
    {
        self.check_room(thing)?;
        Ok(self.put(alloc, thing)?.map(T::into_part))
    }

    /// Puts these things one after another. There is room for all before the first is put.
    pub fn put_all(&mut self, alloc: Global, news: Vec<T>) -> Result<(), NoMemory>
        ensures new { OnOk result (self.new ≡ put_all T.slot.name_of news.items self.old) }
        ensures apart { OnOk result (AreApart T.slot.name_of self.new) }
        ensures err { OnErr result (self.new ≡ self.old) }
    {
        let Some(register) = &mut self.register else {
            let mut register = Register::new(alloc);
            register.put_all(alloc, news)?;
            self.register = Some(Arc::new(alloc, register)?);
            return Ok(());
        };
        Arc::make_mut(register)?.put_all(alloc, news)
    }

    /// Takes out the thing of a name; the others close up.
    pub fn take(&mut self, name: &[u8]) -> Result<Option<T>, NoMemory>
        ensures value { IfOk result (λ taken. taken ≡ named T.slot.name_of name.now self.old) }
        ensures left { OnOk result (self.new ≡ take_out T.slot.name_of name.now self.old) }
        ensures apart { OnOk result (AreApart T.slot.name_of self.new) }
        ensures fewer { length self.new ≤ length self.old }
        ensures absent { IfOk result (λ taken. IfNone taken (self.new ≡ self.old)) }
        ensures err { OnErr result (self.new ≡ self.old) }
    {
        let Some(register) = &mut self.register else {
            return Ok(None);
        };
        Ok(Arc::make_mut(register)?.take(name))
    }

    /// Takes out the thing of a name and gives it as a part; the others close up.
    pub fn take_part(&mut self, name: &[u8]) -> Result<Option<Part>, NoMemory>
        ensures value { IfOk result (λ taken. taken
            ≡ option_map T.slot.part_of (named T.slot.name_of name.now self.old)) }
        ensures left { OnOk result (self.new ≡ take_out T.slot.name_of name.now self.old) }
        ensures apart { AreApart T.slot.name_of self.old → AreApart T.slot.name_of self.new }
        ensures fewer { length self.new ≤ length self.old }
        ensures err { OnErr result (self.new ≡ self.old) }
    {
        Ok(self.take(name)?.map(T::into_part))
    }

    /// The same things again, shared.
    pub fn share(&self) -> Result<Self, NoMemory>
        ensures { IfOk result (λ other. other ≡ self.now) }
    {
        let register = match &self.register {
            Some(register) => Some(register.clone()?),
            None => None,
        };
        Ok(Shared { register })
    }
}
