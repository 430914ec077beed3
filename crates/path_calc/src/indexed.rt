//! A scene with an index of the sides of its obstacles, or without one, and with a list of those that may reflect to a place,
//! or without it.
ghost use Rattle.std.specs.Prelude.{◌≡◌, map, IfOk, OnOk, IfSome};
ghost use Rattle.scene_parts.specs.Parts.{sides_of};
ghost use Rattle.scene_book.specs.Book.{IsWithin, NamesAreApart};
ghost use Rattle.part_grid.specs.Numbered.{numbered};
ghost use Rattle.sight_cut.specs.Cuts.{crossings_of};
ghost use Rattle.image_source.specs.LegCuts.{leg_crossings_of};
ghost use Rattle.image_source.specs.Facing.{facing_sides};
ghost use Rattle.std.specs.List.{list_any};
ghost use Rattle.scene_geom.specs.declared.band.Band.{Band};
ghost use Rattle.path_calc.specs.LateralPaths.{is_in_the_way};
ghost use Rattle.path_calc.specs.inner.Strings.{is_within};

use crate::lateral::blocked::{find_blocking, find_blocking_near};
use crate::workspace::make_ready;
use image_source::{
    FacingSide, FacingSides, Leg, Mirror, find_leg_crossings, find_leg_crossings_near,
};
use part_grid::{Found, Grid};
use scene_book::Scene;
use scene_geom::Pt;
use scene_parts::{
    Breadth, Crossing, Ends, Foliage, Globals, NoMemory, Obstacle, PointSource, Zone,
};
use sight_cut::{find_crossings, find_crossings_near};
use std::alloc::Global;
use std::marker::Model;

/// A scene, and an index of all sides of its obstacles, where there is one: with it a path looks only at the sides near
/// it, and without it at all. Beside it there may be a list of the sides that may reflect to a place: a path to a receiver
/// there looks for reflections in these alone. Contracts see it as the scene.
#[derive(Drop)]
pub struct IndexedScene<'a> {
    scene: &'a Scene,
    grid: Option<&'a Grid>,
    facing: Option<&'a FacingSides>,
}

impl<'a> Model for IndexedScene<'a> {
    ghost use Rattle.std.specs.Prelude.{◌≡◌, map, IfSome};
    ghost use Rattle.scene_book.specs.Book.{Book};
    ghost use Rattle.scene_parts.specs.Parts.{sides_of};
    ghost use Rattle.part_grid.specs.Numbered.{numbered};
    ghost use Rattle.image_source.specs.Facing.{facing_sides};

    ghost Value = { Book };

    ghost view = { λ s. s.scene.now };

    ghost invariant = { λ s.
        (IfSome s.grid (λ grid. grid.now ≡ numbered (map sides_of s.scene.now.obstacles)))
        × (IfSome s.facing (λ facing. facing.now.sides
        ≡ facing_sides facing.now.at s.scene.now.obstacles)) };
}

impl<'a> IndexedScene<'a> {
    /// A scene without an index.
    pub fn plain(scene: &'a Scene) -> IndexedScene<'a>
        ensures { result ≡ scene.now }
    {
        IndexedScene {
            scene,
            grid: None,
            facing: None,
        }
    }

    /// A scene with an index, which stands for its obstacles.
    pub fn by(scene: &'a Scene, grid: &'a Grid) -> IndexedScene<'a>
        requires stands { grid.now ≡ numbered (map sides_of scene.now.obstacles) }
        ensures { result ≡ scene.now }
    {
        IndexedScene {
            scene,
            grid: Some(grid),
            facing: None,
        }
    }

    /// The same scene, with the sides of its obstacles that may reflect to a place.
    pub fn beside(&self, facing: &'a FacingSides) -> IndexedScene<'a>
        requires stands { facing.now.sides ≡ facing_sides facing.now.at self.now.obstacles }
        ensures { result ≡ self.now }
    {
        IndexedScene {
            scene: self.scene,
            grid: self.grid,
            facing: Some(facing),
        }
    }

    /// The sides of the obstacles that may reflect to a place. An error where there is no memory; none is taken where no
    /// obstacle reflects.
    pub fn facing_to(&self, alloc: Global, at: Pt) -> Result<FacingSides, NoMemory>
        ensures { IfOk result (λ facing. facing
            ≡ record { at = at; sides = facing_sides at self.now.obstacles }) }
    {
        FacingSides::of(alloc, self.obstacles(), at)
    }

    /// The sides of the obstacles that may reflect to a place, where they are listed.
    pub(crate) fn facing(&self, at: Pt) -> Option<&'a [FacingSide]>
        ensures { IfSome result (λ sides. sides.now ≡ facing_sides at self.now.obstacles) }
    {
        let facing = self.facing?;
        if facing.at() == at {
            Some(facing.sides())
        } else {
            None
        }
    }

    /// The sources, at most 128.
    pub fn sources(&self) -> &[PointSource]
        ensures value { result.now ≡ self.now.sources }
        ensures within { IsWithin self.now }
        ensures apart { NamesAreApart self.now }
    {
        self.scene.sources()
    }

    /// What holds of the whole scene.
    pub fn globals(&self) -> &Globals
        ensures { result.now ≡ self.now.globals }
    {
        self.scene.globals()
    }

    /// The obstacles.
    pub(crate) fn obstacles(&self) -> &[Obstacle]
        ensures value { result.now ≡ self.now.obstacles }
        ensures within { IsWithin self.now }
        ensures apart { NamesAreApart self.now }
    {
        self.scene.obstacles()
    }

    /// The zones.
    pub(crate) fn zones(&self) -> &[Zone]
        ensures value { result.now ≡ self.now.zones }
        ensures within { IsWithin self.now }
        ensures apart { NamesAreApart self.now }
    {
        self.scene.zones()
    }

    /// The foliage.
    pub(crate) fn foliage(&self) -> &[Foliage]
        ensures value { result.now ≡ self.now.foliage }
        ensures within { IsWithin self.now }
        ensures apart { NamesAreApart self.now }
    {
        self.scene.foliage()
    }

    /// Lists all sides that cross a line of sight, in their order, in place of what a list held. The buffers are lent to the
    /// search.
    pub(crate) fn find_crossings(
        &self,
        ends: Ends,
        found: &mut Found,
        crossings: &mut Vec<Crossing>,
    ) -> Result<(), NoMemory>
        ensures { OnOk result (crossings.new.items ≡ crossings_of ends self.now.obstacles) }
    {
        let obstacles = self.scene.obstacles();
        // in the open nothing is searched for, and no memory is asked for
        if obstacles.is_empty() {
            crossings.clear();
            return Ok(());
        }
        make_ready(crossings)?;
        match self.grid {
            Some(grid) => find_crossings_near(grid, obstacles, ends, found, crossings),
            None => find_crossings(obstacles, ends, crossings),
        }
    }

    /// Lists all sides that cross the legs of a path by way of a wall, in their order, in place of what a list held. The
    /// buffers are lent to the search.
    pub(crate) fn find_leg_crossings(
        &self,
        mirror: &Mirror,
        ends: Ends,
        found: &mut Found,
        crossings: &mut Vec<(Leg, Crossing)>,
    ) -> Result<(), NoMemory>
        ensures { OnOk result (crossings.new.items
            ≡ leg_crossings_of mirror.now ends self.now.obstacles) }
    {
        let obstacles = self.scene.obstacles();
        make_ready(crossings)?;
        match self.grid {
            Some(grid) => find_leg_crossings_near(grid, obstacles, mirror, ends, found, crossings),
            None => find_leg_crossings(obstacles, mirror, ends, crossings),
        }
    }

    /// Finds how broad those obstacles are that are in the way of the string which turns at these corners: in a band in
    /// which one of them is large enough, sound doesn't go along it. It stands in place of what the list held. The
    /// buffers are lent to the search.
    pub(crate) fn find_blocking(
        &self,
        ends: Ends,
        corners: &[Pt],
        found: &mut Found,
        blocking: &mut Vec<Breadth>,
    ) -> Result<(), NoMemory>
        ensures { OnOk result ((band : Band) → list_any (is_within band) blocking.new.items
            ≡ list_any (is_in_the_way band ends corners.now) self.now.obstacles) }
    {
        let obstacles = self.scene.obstacles();
        match self.grid {
            Some(grid) => find_blocking_near(grid, obstacles, ends, corners, found, blocking),
            None => find_blocking(obstacles, ends, corners, blocking),
        }
    }
}
