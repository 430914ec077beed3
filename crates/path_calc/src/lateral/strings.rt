//! Strings that are stretched round the sides of what screens (ISO 9613-2, 7.4, equation 13).
ghost use Rattle.std.specs.Prelude.{◌≡◌, ◌<◌, [], ◌++◌, List, length, OnOk, IfSome};
ghost use Rattle.std.specs.List.{list_any};
ghost use Rattle.fix_interval.specs.Interval.{Interval};
ghost use Rattle.fix_interval.specs.Tree.{Known, enc};
ghost use Rattle.scene_parts.specs.Parts.{IsHeight, Obstacle as ObstacleView};
ghost use Rattle.term_barrier.specs.Lateral.{in_band, side_attenuation};
ghost use Rattle.term_barrier.specs.Limits.{IsScreening};
ghost use Rattle.path_calc.specs.inner.Ends.{FitsSight};
ghost use Rattle.path_calc.specs.inner.Ranges.{IsOnMap, IsShort, IsLateralScreening};
ghost use Rattle.path_calc.specs.inner.Strings.{numbers_in, IsStretched, AreStretched, IsMeasured, AreMeasured};
ghost use Rattle.path_calc.specs.Trace.{string_segments};
ghost use Rattle.path_calc.specs.inner.Tracing.{segments_between};
ghost use Rattle.path_calc.specs.inner.Strings.{is_within, leads_along, d_z_round, lateral_in};

use crate::bundles::segments::{Seg, Segs};
use crate::lateral::screening_obstacles::{are_numbers_in, find_corners_at, find_numbers_in};
use crate::lateral::{LateralScreening, Sight};
use edge_chain::{Hand, stretch};
use fix_interval::Iv;
use part_grid::Found;
use scene_geom::{Band, Pt};
use scene_parts::{Breadth, Ends, NoMemory};
use std::alloc::Global;
use term_barrier::RoundSides;

/// The strings round the obstacles of some numbers, on the left and the right hand of a line of sight. They are lent
/// from one path to the next, and with them the memory of their lists; the corners of the obstacles, round which the
/// strings are stretched, stand in one of these.
#[derive(Drop)]
pub(crate) struct Strings {
    pub(crate) numbers: Vec<u32>,
    points: Vec<Pt>,
    pub(crate) left: Stretched,
    pub(crate) right: Stretched,
}

/// The corners at which a string turns, and how broad the obstacles are that its way would lead through: in the bands in
/// which one of them is large enough, sound doesn't go along it. Where it turns, what the bands share of the way round its
/// corners stands beside them.
#[derive(Drop)]
pub(crate) struct Stretched {
    pub(crate) corners: Vec<Pt>,
    pub(crate) blocking: Vec<Breadth>,
    pub(crate) way: Option<RoundSides>,
}

impl Strings {
    /// The strings round no obstacle, which take no memory.
    pub(crate) fn none(alloc: Global) -> Strings
        ensures numbers { result.numbers.items ≡ [] }
        ensures stretched { (ends : Ends) (obstacles : List ObstacleView)
            → AreStretched result ends obstacles }
        ensures measured { (ends : Ends) (d : Interval) → AreMeasured result ends d }
    {
        Strings {
            numbers: Vec::new(alloc),
            points: Vec::new(alloc),
            left: Stretched::none(alloc),
            right: Stretched::none(alloc),
        }
    }

    /// Makes them the strings round no obstacle, whatever they were. The memory of their lists stays.
    pub(crate) fn clear(&mut self)
        ensures numbers { self.new.numbers.items ≡ [] }
        ensures stretched { (ends : Ends) (obstacles : List ObstacleView)
            → AreStretched self.new ends obstacles }
        ensures measured { (ends : Ends) (d : Interval) → AreMeasured self.new ends d }
    {
        self.numbers.clear();
        self.points.clear();
        self.left.clear();
        self.right.clear();
    }

    /// Stretches both strings along a line of sight round the obstacles of the numbers that stand.
    fn stretch(&mut self, sight: &Sight<'_>, found: &mut Found) -> Result<(), NoMemory>
        requires sight { FitsSight sight.now }
        ensures numbers { OnOk result (self.new.numbers.items ≡ self.old.numbers.items) }
        ensures stretched { OnOk result
            (AreStretched self.new sight.now.ends sight.now.scene.now.obstacles) }
        ensures measured { OnOk result (AreMeasured self.new sight.now.ends sight.now.d) }
    {
        let obstacles = sight.scene.obstacles();
        find_corners_at(obstacles, self.numbers.as_slice(), &mut self.points)?;
        let points = self.points.as_slice();
        self.left.stretch(sight, points, Hand::Left, found)?;
        self.right.stretch(sight, points, Hand::Right, found)
    }

    /// The strings along a line of sight in another band: they stay where the same obstacles screen there. Else others
    /// are stretched, and their segments are added to the trace. The buffers are lent to the search of what stands near
    /// them.
    pub(crate) fn turn_to(
        &mut self,
        sight: &Sight<'_>,
        band: Band,
        found: &mut Found,
        trace: &mut Segs,
    ) -> Result<(), NoMemory>
        requires sight { FitsSight sight.now }
        requires stretched { AreStretched self.old sight.now.ends sight.now.scene.now.obstacles }
        requires measured { AreMeasured self.old sight.now.ends sight.now.d }
        ensures numbers { OnOk result
            (self.new.numbers.items ≡ numbers_in band sight.now.crossings.now) }
        ensures stretched { OnOk result
            (AreStretched self.new sight.now.ends sight.now.scene.now.obstacles) }
        ensures measured { OnOk result (AreMeasured self.new sight.now.ends sight.now.d) }
        ensures trace { OnOk result (trace.new ≡ trace.old
            ++ segments_between sight.now.ends self.old.numbers.items self.new) }
    {
        if !are_numbers_in(self.numbers.as_slice(), sight.crossings, band) {
            find_numbers_in(sight.crossings, band, &mut self.numbers)?;
            self.stretch(sight, found)?;
            self.add_to(trace, sight.ends)?;
        }
        Ok(())
    }

    /// Adds the segments of both strings to a trace, those on the left hand first.
    fn add_to(&self, trace: &mut Segs, ends: Ends) -> Result<(), NoMemory>
        ensures { OnOk result (trace.new ≡ trace.old ++ (string_segments ends self.now.left.corners.items
            ++ string_segments ends self.now.right.corners.items)) }
    {
        self.left.add_to(trace, ends)?;
        self.right.add_to(trace, ends)
    }

    /// D_z in dB along both strings in a band, over the distance for which they are measured.
    pub(crate) fn d_z(&self, band: Band) -> LateralScreening
        ensures value { (ends : Ends) (d : Interval) → AreMeasured self.now ends d
            → result ≡ lateral_in self.now ends d band }
        ensures bounds { (ends : Ends) (d : Interval) → AreMeasured self.now ends d
            → IsLateralScreening result }
    {
        LateralScreening {
            left: self.left.d_z(band),
            right: self.right.d_z(band),
        }
    }
}

impl Stretched {
    /// The string round no corner.
    fn none(alloc: Global) -> Stretched
        ensures stretched { (ends : Ends) (obstacles : List ObstacleView) (hand : Hand)
            → IsStretched result ends obstacles [] hand }
        ensures measured { (ends : Ends) (d : Interval) → IsMeasured result ends d }
    {
        Stretched {
            corners: Vec::new(alloc),
            blocking: Vec::new(alloc),
            way: None,
        }
    }

    /// Makes it the string round no corner, whatever it was. The memory of its lists stays.
    fn clear(&mut self)
        ensures stretched { (ends : Ends) (obstacles : List ObstacleView) (hand : Hand)
            → IsStretched self.new ends obstacles [] hand }
        ensures measured { (ends : Ends) (d : Interval) → IsMeasured self.new ends d }
    {
        self.corners.clear();
        self.blocking.clear();
        self.way = None;
    }

    /// Stretches the string round some points on a hand of a line of sight, whatever it was.
    fn stretch(
        &mut self,
        sight: &Sight<'_>,
        points: &[Pt],
        hand: Hand,
        found: &mut Found,
    ) -> Result<(), NoMemory>
        requires sight { FitsSight sight.now }
        ensures stretched { OnOk result
            (IsStretched self.new sight.now.ends sight.now.scene.now.obstacles points.now hand) }
        ensures measured { OnOk result (IsMeasured self.new sight.now.ends sight.now.d) }
    {
        let (scene, ends) = (sight.scene, sight.ends);
        stretch(points, ends.s, ends.r, hand, &mut self.corners)?;
        let corners = self.corners.as_slice();
        if corners.is_empty() {
            self.clear();
            return Ok(());
        }
        scene.find_blocking(ends, corners, found, &mut self.blocking)?;
        self.way = Some(way_round(ends, corners, sight.d));
        Ok(())
    }

    /// Adds the segments of the string to a trace, of which a string without corners has none.
    fn add_to(&self, trace: &mut Segs, ends: Ends) -> Result<(), NoMemory>
        ensures { OnOk result (trace.new ≡ trace.old ++ string_segments ends self.now.corners.items) }
    {
        if self.corners.is_empty() {
            return Ok(());
        }
        let mut from = ends.s;
        for corner in self.corners.as_slice() {
            trace.push(Seg::Straight(from, *corner))?;
            from = *corner;
        }
        trace.push(Seg::Straight(from, ends.r))?;
        Ok(())
    }

    /// D_z in dB along the string in a band, where sound goes along it, over the distance for which it is measured.
    pub(crate) fn d_z(&self, band: Band) -> Option<Iv>
        ensures value { (ends : Ends) (d : Interval) → IsMeasured self.now ends d
            → result ≡ d_z_round ends self.now.corners.items d band (leads_along self.now band) }
        ensures bounds { (ends : Ends) (d : Interval) → IsMeasured self.now ends d
            → IfSome result IsScreening }
    {
        if is_any_within(self.blocking.as_slice(), band) {
            return None;
        }
        let way = self.way.as_ref()?;
        Some(way.d_z(band))
    }
}

/// What the bands share of the way round some corners, where source and receiver are `d` apart in metres.
fn way_round(ends: Ends, corners: &[Pt], d: Iv) -> RoundSides
    requires source_height { IsHeight ends.hs }
    requires receiver_height { IsHeight ends.hr }
    requires distance { IsOnMap d }
    requires turns { 0 < length corners.now }
    requires short { IsShort corners.now }
    ensures values { (band : Band) → in_band result band
        ≡ enc (side_attenuation ends.s ends.hs ends.r ends.hr corners.now (Known d) band) }
    ensures bounds { (band : Band) → IsScreening (in_band result band) }
{
    RoundSides::of(ends.s, ends.hs, ends.r, ends.hr, corners, d)
}

/// Whether one of some obstacles is large enough in a band.
fn is_any_within(breadths: &[Breadth], band: Band) -> bool
    ensures { result ≡ list_any (is_within band) breadths.now }
{
    for breadth in breadths {
        if breadth.exceeds_wavelength(band) {
            return true;
        }
    }
    false
}
