//! Paths by way of reflecting walls (ISO 9613-2, 7.5).
ghost use Rattle.std.specs.Prelude.{◌≡◌, ◌≤◌, ◌<◌, [], ◌++◌, true, length, map, slice_get, Some, IfOk, OnOk};
ghost use Rattle.std.specs.Option.{option_to_list};
ghost use Rattle.scene_geom.specs.Reflection.{CanReflect};
ghost use Rattle.scene_parts.specs.Parts.{sides_of};
ghost use Rattle.scene_geom.specs.Reflection.{unfolded};
ghost use Rattle.scene_book.specs.Book.{most_sides};
ghost use Rattle.fix_interval.specs.Tree.{enc};
ghost use Rattle.image_source.specs.Mirrors.{has_mirror as is_mirror_of};
ghost use Rattle.path_calc.specs.Contributions.{reflection_level as level_form};
ghost use Rattle.std.specs.List.{list_any};
ghost use Rattle.scene_geom.specs.Bands.{all_bands};
ghost use Rattle.image_source.specs.LegCuts.{leg_crossings_of};
ghost use Rattle.image_source.specs.Facing.{facing_sides};
ghost use Rattle.term_barrier.specs.Limits.{IsDistance};
ghost use Rattle.path_calc.specs.ReflectedPaths.{path_along, along_legs, reflected_in, reflected_by, reflected_paths};
ghost use Rattle.path_calc.specs.inner.Ends.{FitsEnds};
ghost use Rattle.path_calc.specs.inner.Hearing.{reflected_of, propagation_along, is_asked, may_be_heard, truth_in, crossings_on};
ghost use Rattle.path_calc.specs.inner.Propagations.{IsPropagation, IsReflectionLevel};

use crate::bundles::segments::Seg;
use crate::direct::lengths::reflected_distance;
use crate::direct::propagation::{Between, Propagation};
use crate::prepared::PreparedSource;
use crate::reflected::{Echo, Reflected, Sound};
use crate::workspace::{LineBuffers, make_ready};
use enclose_log::lg;
use fix_interval::{Iv, Truth, exact, mul, ratio};
use image_source::{FacingSide, Leg, Mirror, big_enough_in_bands, has_mirror};
use path_shape::Path;
use scene_geom::{Band, Side};
use scene_parts::{Crossing, Ends, NoMemory, Obstacle, side_of, sides};

impl<'a> Between<'a> {
    /// Lists all paths by way of walls, in the order of obstacles and sides, in place of what a list held. Where the sides
    /// that may reflect to the receiver are listed, no other is looked at. The buffers are lent to one path after the other.
    /// It is put into its caller, since there is nothing to reflect in the open.
    #[inline(always)]
    pub(crate) fn find_reflected(
        &self,
        found: &mut Vec<Reflected>,
        buffers: &mut LineBuffers,
    ) -> Result<(), NoMemory>
        requires ends { FitsEnds self.now }
        ensures value { OnOk result (let book = self.now.scene.now in found.new.items
            ≡ map (reflected_of book.globals self.now.from.now self.now.ends)
            (reflected_paths book self.now.ends)) }
        ensures few { OnOk result (length found.new.items ≤ most_sides) }
    {
        found.clear();
        if self.scene.obstacles().is_empty() {
            return Ok(());
        }
        match self.scene.facing(self.ends.r) {
            Some(sides) => self.add_by_facing(found, sides, buffers),
            None => self.add_by_any(found, buffers),
        }
    }

    /// Adds all paths by way of walls to none, of the sides that may reflect to the receiver. Most of them mirror no source
    /// there, and nothing else is asked of those.
    fn add_by_facing(
        &self,
        found: &mut Vec<Reflected>,
        sides: &[FacingSide],
        buffers: &mut LineBuffers,
    ) -> Result<(), NoMemory>
        requires ends { FitsEnds self.now }
        requires facing { sides.now ≡ facing_sides self.now.ends.r self.now.scene.now.obstacles }
        requires none { found.old.items ≡ [] }
        ensures value { OnOk result (let book = self.now.scene.now in found.new.items
            ≡ map (reflected_of book.globals self.now.from.now self.now.ends)
            (reflected_paths book self.now.ends)) }
        ensures few { OnOk result (length found.new.items ≤ most_sides) }
    {
        let obstacles = self.scene.obstacles();
        for facing in sides {
            if facing.may_mirror(self.ends.s) {
                let wall = facing.owned();
                let obstacle = &obstacles[wall.obstacle as usize];
                self.add_side(found, obstacle, wall.index, wall.side, buffers)?;
            }
        }
        Ok(())
    }

    /// Adds all paths by way of walls to none, of all obstacles. Those that don't reflect are passed over.
    fn add_by_any(
        &self,
        found: &mut Vec<Reflected>,
        buffers: &mut LineBuffers,
    ) -> Result<(), NoMemory>
        requires ends { FitsEnds self.now }
        requires none { found.old.items ≡ [] }
        ensures value { OnOk result (let book = self.now.scene.now in found.new.items
            ≡ map (reflected_of book.globals self.now.from.now self.now.ends)
            (reflected_paths book self.now.ends)) }
        ensures few { OnOk result (length found.new.items ≤ most_sides) }
    {
        for obstacle in self.scene.obstacles() {
            self.add_reflected(found, obstacle, buffers)?;
        }
        Ok(())
    }

    /// Adds the paths by way of the sides of an obstacle, of which there are none where it doesn't reflect.
    fn add_reflected(
        &self,
        found: &mut Vec<Reflected>,
        obstacle: &Obstacle,
        buffers: &mut LineBuffers,
    ) -> Result<(), NoMemory>
        requires ends { FitsEnds self.now }
        ensures { OnOk result (let book = self.now.scene.now in found.new.items
            ≡ found.old.items ++ map (reflected_of book.globals self.now.from.now self.now.ends)
            (reflected_by book self.now.ends obstacle.now)) }
    {
        if obstacle.rho == 0 {
            return Ok(());
        }
        for i in 0..sides(obstacle) {
            self.add_side(found, obstacle, i, side_of(obstacle, i), buffers)?;
        }
        Ok(())
    }

    /// Adds the path by way of a side of an obstacle, where the side reflects. Its number is `i`.
    fn add_side(
        &self,
        found: &mut Vec<Reflected>,
        obstacle: &Obstacle,
        i: u32,
        side: Side,
        buffers: &mut LineBuffers,
    ) -> Result<(), NoMemory>
        requires ends { FitsEnds self.now }
        requires reflects { 0 < obstacle.now.rho }
        requires number { i < length (sides_of obstacle.now) }
        requires side { slice_get (sides_of obstacle.now) i ≡ Some side }
        ensures { OnOk result (let book = self.now.scene.now in found.new.items
            ≡ found.old.items ++ map (reflected_of book.globals self.now.from.now self.now.ends)
            (option_to_list (reflected_in book self.now.ends obstacle.now side))) }
    {
        if !has_mirror(obstacle, side, self.ends) {
            return Ok(());
        }
        self.add_by_way_of(found, obstacle, side, buffers)
    }

    /// Adds the path by way of a side of an obstacle that mirrors the source to the receiver. Most sides don't, so that the
    /// loop over them keeps no room for a path.
    #[inline(never)]
    fn add_by_way_of(
        &self,
        found: &mut Vec<Reflected>,
        obstacle: &Obstacle,
        side: Side,
        buffers: &mut LineBuffers,
    ) -> Result<(), NoMemory>
        requires ends { FitsEnds self.now }
        requires reflects { 0 < obstacle.now.rho }
        requires wall { CanReflect side self.now.ends.s self.now.ends.r }
        requires mirrors { is_mirror_of obstacle.now side self.now.ends ≡ true }
        ensures { OnOk result (let book = self.now.scene.now in found.new.items
            ≡ found.old.items ++ map (reflected_of book.globals self.now.from.now self.now.ends)
            (option_to_list (reflected_in book self.now.ends obstacle.now side))) }
    {
        let mirror = Mirror::of(side, self.ends.s, self.ends.r);
        make_room(found)?;
        found.push(self.by_way_of(obstacle, side, &mirror, buffers)?)?;
        Ok(())
    }

    /// The path by way of a side of an obstacle. In which bands the wall is large enough is asked first: many walls are too
    /// small in all of them, and along those nothing is calculated.
    fn by_way_of(
        &self,
        obstacle: &Obstacle,
        side: Side,
        mirror: &Mirror,
        buffers: &mut LineBuffers,
    ) -> Result<Reflected, NoMemory>
        requires ends { FitsEnds self.now }
        requires reflects { 0 < obstacle.now.rho }
        requires wall { CanReflect side self.now.ends.s self.now.ends.r }
        requires mirror { mirror.now ≡ unfolded side self.now.ends.s self.now.ends.r }
        ensures value { IfOk result (λ found. let book = self.now.scene.now in found
            ≡ reflected_of book.globals self.now.from.now self.now.ends
            (along_legs book self.now.ends obstacle.now side mirror.now)) }
    {
        let ends = self.ends;
        let wall = Seg::Legs(side, ends.s, ends.r);
        let distance = reflected_distance(mirror.plan2, ends.hs, ends.hr);
        let counts = big_enough_in_bands(side, obstacle.h, mirror, distance);
        let asked = heard_in_bands(self.from, &counts);
        if !is_any(&asked) {
            return Ok(Reflected::of(wall, Echo::Silent));
        }
        let path = self.along_legs(side, mirror, distance, &asked, buffers)?;
        let level = reflection_level(obstacle.rho);
        let sound = Sound {
            path,
            level,
            counts,
        };
        Ok(Reflected::of(wall, Echo::Audible(sound)))
    }

    /// The quantities of the path by way of a side of an obstacle, over a distance in metres, where these bands are asked for.
    fn along_legs(
        &self,
        side: Side,
        mirror: &Mirror,
        distance: Iv,
        asked: &[bool; 8],
        buffers: &mut LineBuffers,
    ) -> Result<Propagation, NoMemory>
        requires ends { FitsEnds self.now }
        requires wall { CanReflect side self.now.ends.s self.now.ends.r }
        requires mirror { mirror.now ≡ unfolded side self.now.ends.s self.now.ends.r }
        requires distance { IsDistance distance }
        ensures value { IfOk result (λ found. let book = self.now.scene.now in found
            ≡ propagation_along book (path_along self.now.ends mirror.now) mirror.now.square distance
            (crossings_on (leg_crossings_of mirror.now self.now.ends book.obstacles)) (is_asked asked.now)) }
        ensures range { IfOk result IsPropagation }
    {
        let ends = self.ends;
        let path = Path::reflected(side, ends.s, ends.hs, ends.r, ends.hr);
        let LineBuffers {
            found,
            legs,
            on_legs,
            screening,
        } = buffers;
        self.scene.find_leg_crossings(mirror, ends, found, legs)?;
        list_on_legs(legs.as_slice(), on_legs)?;
        let mut sound = self.in_the_open(&path, mirror.plan2, distance);
        sound.screen(self.alloc, on_legs.as_slice(), &path, asked, screening)?;
        Ok(sound)
    }
}

/// For each band whether something may be heard there of a source by way of a wall, where it is known in which bands the wall
/// is large enough.
fn heard_in_bands(source: &PreparedSource, counts: &[Truth; 8]) -> [bool; 8]
    ensures { result ≡ map (may_be_heard source.now (truth_in counts.now)) all_bands }
{
    Band::of_each(|band| is_heard_in(source, counts, band))
}

/// Whether something may be heard in a band: there is power, and the wall isn't known to be too small.
fn is_heard_in(source: &PreparedSource, counts: &[Truth; 8], band: Band) -> bool
    ensures { result ≡ may_be_heard source.now (truth_in counts.now) band }
{
    source.has_power(band) && !matches!(counts[band.place()], Truth::Never)
}

/// Whether any band is asked for.
fn is_any(asked: &[bool; 8]) -> bool
    ensures { result ≡ list_any (λ band. band) asked.now }
{
    for band in asked {
        if *band {
            return true;
        }
    }
    false
}

/// Lists the crossings of both legs, whatever leg each is of, in place of what a list held.
fn list_on_legs(legs: &[(Leg, Crossing)], crossings: &mut Vec<Crossing>) -> Result<(), NoMemory>
    ensures { OnOk result (crossings.new.items ≡ crossings_on legs.now) }
{
    make_ready(crossings)?;
    for (_, crossing) in legs {
        crossings.push(*crossing)?;
    }
    Ok(())
}

/// Makes room for the first of the paths by way of walls, and for more: paths that no wall reflects need none.
fn make_room(found: &mut Vec<Reflected>) -> Result<(), NoMemory>
    ensures { found.new.items ≡ found.old.items }
{
    if found.is_empty() {
        found.reserve(16)?;
    }
    Ok(())
}

/// 10 lg rho, of what a wall reflects per mille, in dB.
#[tactic(auto, unfolding(crate::specs::Contributions::reflection_level))]
fn reflection_level(rho: u16) -> Iv
    requires reflects { 0 < rho }
    requires no_more { rho ≤ 1000 }
    ensures value { result ≡ enc (level_form rho) }
    ensures bounds { 200 < rho → IsReflectionLevel result }
{
    mul(exact(10), lg(ratio(rho.into(), 1000)))
}
