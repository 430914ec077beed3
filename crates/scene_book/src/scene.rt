//! The scene.
ghost use Rattle.std.specs.Prelude.{◌≡◌, ◌≤◌, [], length, Ok, Err, IfOk, IfErr, OnOk, OnErr, option_map};
ghost use Rattle.scene_parts.specs.Answers.{Unless};
ghost use Rattle.scene_parts.specs.declared.parts.Part.TheVariants as parts;
ghost use Rattle.scene_book.specs.Book.{most_obstacles, most_sides, IsWithin, NamesAreApart, empty_book, side_total, with_setting};
ghost use Rattle.scene_book.specs.Lists.{named, place_of, put_in, take_out, AreApart};
ghost use Rattle.scene_book.specs.Applying.{holder, part_named, put_where_room, put_receivers as put_receivers_of, without_any, in_limits, with_part, lacks_memory, Leaves};

use super::edits::EditFault;
use super::limits::at_most;
use super::named::{MAX_SIDES, shape_class};
use super::register::{Named, part_like};
use super::shared::Shared;
use scene_parts::{
    Class, Foliage, Globals, NoMemory, Obstacle, Part, PointSource, Receiver, SetSpec, Zone, sides,
};
use std::alloc::Global;
use std::marker::Model;

/// The parts of a scene in the order of insertion, and what holds of the whole scene. Contracts see it as
/// the record `Book` of these lists.
#[derive(Drop)]
pub struct Scene {
    sources: Shared<PointSource>,
    obstacles: Shared<Obstacle>,
    zones: Shared<Zone>,
    foliage: Shared<Foliage>,
    receivers: Shared<Receiver>,
    sides: u32,
    globals: Globals,
}

impl Model for Scene {
    ghost use Rattle.std.specs.Prelude.{◌≡◌};
    ghost use Rattle.scene_book.specs.Book.{Book, IsKept};

    ghost Value = { Book };

    ghost view = { λ s. record { sources = s.sources; obstacles = s.obstacles; zones = s.zones; foliage = s.foliage; receivers = s.receivers; globals = s.globals } };

    ghost invariant = { λ s. IsKept s.sides (record { sources = s.sources; obstacles = s.obstacles; zones = s.zones; foliage = s.foliage; receivers = s.receivers; globals = s.globals }) };
}

impl Scene {
    /// The scene without parts: sources reach 4 km, the ground is hard, the air has 10 °C and 70 %, C0 is 0, and the
    /// ground goes by the general method.
    pub fn empty(alloc: Global) -> Result<Self, NoMemory>
        ensures { result ≡ Ok empty_book }
    {
        Ok(Scene {
            sources: Shared::new(),
            obstacles: Shared::new(),
            zones: Shared::new(),
            foliage: Shared::new(),
            receivers: Shared::new(),
            sides: 0,
            globals: Globals::initial(),
        })
    }

    /// The sources, at most 128.
    pub fn sources(&self) -> &[PointSource]
        ensures value { result.now ≡ self.now.sources }
        ensures within { IsWithin self.now }
        ensures apart { NamesAreApart self.now }
    {
        self.sources.items()
    }

    /// The barriers and buildings, at most 4,096.
    pub fn obstacles(&self) -> &[Obstacle]
        ensures value { result.now ≡ self.now.obstacles }
        ensures within { IsWithin self.now }
        ensures apart { NamesAreApart self.now }
    {
        self.obstacles.items()
    }

    /// The zones, at most 1,024.
    pub fn zones(&self) -> &[Zone]
        ensures value { result.now ≡ self.now.zones }
        ensures within { IsWithin self.now }
        ensures apart { NamesAreApart self.now }
    {
        self.zones.items()
    }

    /// The foliage, at most 1,024.
    pub fn foliage(&self) -> &[Foliage]
        ensures value { result.now ≡ self.now.foliage }
        ensures within { IsWithin self.now }
        ensures apart { NamesAreApart self.now }
    {
        self.foliage.items()
    }

    /// The receivers, at most 4,096.
    pub fn receivers(&self) -> &[Receiver]
        ensures value { result.now ≡ self.now.receivers }
        ensures within { IsWithin self.now }
        ensures apart { NamesAreApart self.now }
    {
        self.receivers.items()
    }

    /// The place of the receiver of a name.
    pub fn receiver_place(&self, name: &[u8]) -> Option<usize>
        ensures { result ≡ place_of (λ r. r.name) name.now self.now.receivers }
    {
        self.receivers.place(name)
    }

    /// What holds of the whole scene.
    pub fn globals(&self) -> &Globals
        ensures { result.now ≡ self.now.globals }
    {
        &self.globals
    }

    /// The same scene again. It shares each list with this one until either changes it.
    pub fn copy(&self) -> Result<Self, NoMemory>
        ensures { IfOk result (λ copied. copied ≡ self.now) }
    {
        let mut copied = self.without_receivers()?;
        copied.receivers = self.receivers.share()?;
        Ok(copied)
    }

    /// The same scene without its receivers. It shares each other list with this one until either changes it.
    pub fn without_receivers(&self) -> Result<Self, NoMemory>
        ensures { IfOk result (λ other. other ≡ record self.now { receivers = [] }) }
    {
        let sources = self.sources.share()?;
        let obstacles = self.obstacles.share()?;
        let zones = self.zones.share()?;
        let foliage = self.foliage.share()?;
        Ok(Scene {
            sources,
            obstacles,
            zones,
            foliage,
            receivers: Shared::new(),
            sides: self.sides,
            globals: self.globals,
        })
    }

    /// The class of the part that bears a name.
    pub(crate) fn class_of_name(&self, name: &[u8]) -> Option<Class>
        ensures { result ≡ holder self.now name.now }
    {
        if self.sources.get(name).is_some() {
            return Some(Class::Source);
        }
        if let Some(obstacle) = self.obstacles.get(name) {
            return Some(shape_class(obstacle.shape));
        }
        if self.zones.get(name).is_some() {
            return Some(Class::Zone);
        }
        if self.foliage.get(name).is_some() {
            return Some(Class::Foliage);
        }
        if self.receivers.get(name).is_some() {
            return Some(Class::Receiver);
        }
        None
    }

    /// A copy of the part that bears a name.
    pub fn part(&self, name: &[u8]) -> Result<Option<Part>, NoMemory>
        ensures { IfOk result (λ part. part ≡ part_named self.now name.now) }
    {
        if let Some(source) = self.sources.get(name) {
            return part_like(source);
        }
        if let Some(obstacle) = self.obstacles.get(name) {
            return part_like(obstacle);
        }
        if let Some(zone) = self.zones.get(name) {
            return part_like(zone);
        }
        if let Some(foliage) = self.foliage.get(name) {
            return part_like(foliage);
        }
        match self.receivers.get(name) {
            Some(receiver) => part_like(receiver),
            None => Ok(None),
        }
    }

    /// How many sides barriers and buildings have together once one is put.
    fn sides_with(&self, obstacle: &Obstacle) -> u32
        ensures { result ≡ side_total (put_in (λ o. o.name) obstacle.now self.now.obstacles) }
    {
        match self.obstacles.get(Named::name(obstacle)) {
            Some(old) => self.sides - sides(old) + sides(obstacle),
            None => self.sides + sides(obstacle),
        }
    }

    /// How many sides there are once a barrier or building is put, where there is room for it and for its sides,
    /// else `Full`.
    fn room_for(&self, obstacle: &Obstacle) -> Result<u32, EditFault>
        ensures total { IfOk result (λ total. total
            ≡ side_total (put_in (λ o. o.name) obstacle.now self.now.obstacles)) }
        ensures few { OnOk result
            (length (put_in (λ o. o.name) obstacle.now self.now.obstacles) ≤ most_obstacles) }
        ensures few_sides { IfOk result (λ total. total ≤ most_sides) }
        ensures fits { OnOk result
            (in_limits (parts.Obstacle obstacle.now) (with_part (parts.Obstacle obstacle.now) self.now) ≡ Ok tt) }
        ensures full { IfErr result (λ fault. Unless (lacks_memory fault)
            (in_limits (parts.Obstacle obstacle.now) (with_part (parts.Obstacle obstacle.now) self.now) ≡ Err fault)) }
    {
        self.obstacles.check_room(obstacle)?;
        let total = self.sides_with(obstacle);
        at_most(Class::Side, MAX_SIDES, total as usize)?;
        Ok(total)
    }

    /// Puts a copy of a barrier or building where there is room, and gives the one that it replaces.
    #[tactic(auto, unfolding(crate::specs::Applying::put_where_room))]
    fn put_obstacle(
        &mut self,
        alloc: Global,
        obstacle: &Obstacle,
    ) -> Result<Option<Part>, EditFault>
        ensures value { Leaves self.new result (put_where_room (parts.Obstacle obstacle.now) self.old) }
        ensures unchanged { OnErr result (self.new ≡ self.old) }
    {
        let total = self.room_for(obstacle)?;
        let old = self.obstacles.put(alloc, obstacle)?;
        self.sides = total;
        Ok(old.map(Part::Obstacle))
    }

    /// Puts a copy of a part where its class has room, and gives the one that it replaces.
    #[tactic(auto, unfolding(crate::specs::Applying::put_where_room))]
    pub(crate) fn put(&mut self, alloc: Global, part: &Part) -> Result<Option<Part>, EditFault>
        ensures value { Leaves self.new result (put_where_room part.now self.old) }
        ensures unchanged { OnErr result (self.new ≡ self.old) }
    {
        match part {
            Part::Source(source) => self.sources.put_where_room(alloc, source),
            Part::Obstacle(obstacle) => self.put_obstacle(alloc, obstacle),
            Part::Zone(zone) => self.zones.put_where_room(alloc, zone),
            Part::Foliage(foliage) => self.foliage.put_where_room(alloc, foliage),
            Part::Receiver(receiver) => self.receivers.put_where_room(alloc, receiver),
        }
    }

    /// Puts these receivers, whose names are apart, one after another, or `Full`.
    #[tactic(auto, unfolding(crate::specs::Applying::put_receivers))]
    pub(crate) fn put_receivers(
        &mut self,
        alloc: Global,
        news: Vec<Receiver>,
    ) -> Result<(), EditFault>
        requires { AreApart (λ r. r.name) news.items }
        ensures value { Leaves self.new result (put_receivers_of news.items self.old) }
        ensures unchanged { OnErr result (self.new ≡ self.old) }
    {
        self.receivers.check_room_for_all(&news)?;
        Ok(self.receivers.put_all(alloc, news)?)
    }

    /// Takes out the part of a name.
    pub(crate) fn take(&mut self, name: &[u8]) -> Result<Option<Part>, NoMemory>
        ensures value { IfOk result (λ part. part ≡ part_named self.old name.now) }
        ensures left { OnOk result (self.new ≡ without_any name.now (part_named self.old name.now) self.old) }
        ensures unchanged { OnErr result (self.new ≡ self.old) }
    {
        if self.sources.has(name) {
            return self.sources.take_part(name);
        }
        if self.obstacles.has(name) {
            return self.take_obstacle(name);
        }
        if self.zones.has(name) {
            return self.zones.take_part(name);
        }
        if self.foliage.has(name) {
            return self.foliage.take_part(name);
        }
        if self.receivers.has(name) {
            return self.receivers.take_part(name);
        }
        Ok(None)
    }

    /// Takes out the barrier or building of a name.
    fn take_obstacle(&mut self, name: &[u8]) -> Result<Option<Part>, NoMemory>
        ensures value { IfOk result (λ taken. taken
            ≡ option_map parts.Obstacle (named (λ o. o.name) name.now self.old.obstacles)) }
        ensures left { OnOk result (self.new
            ≡ record self.old { obstacles = take_out (λ o. o.name) name.now self.old.obstacles }) }
        ensures unchanged { OnErr result (self.new ≡ self.old) }
    {
        let Some(obstacle) = self.obstacles.take(name)? else {
            return Ok(None);
        };
        self.sides -= sides(&obstacle);
        Ok(Some(Part::Obstacle(obstacle)))
    }

    /// Sets some of the globals.
    pub(crate) fn set(&mut self, setting: &SetSpec)
        ensures { self.new ≡ with_setting setting.now self.old }
    {
        self.globals = self.globals.with(setting);
    }
}
