//! By how much a path is screened over the top: the direct one, or the legs of a reflection.
ghost use Rattle.std.specs.Prelude.{◌≡◌, ◌≤◌, ◌∷◌, map, pos, IfOk, OnOk, All, slice_index_or, vec_len};
ghost use Rattle.scene_parts.specs.Crossings.{is_crossing_in};
ghost use Rattle.term_barrier.specs.Edges.{FitsEdge};
ghost use Rattle.term_barrier.specs.Limits.{IsGroundEffect, IsScreening};
ghost use Rattle.fix_interval.specs.Interval.{Interval};
ghost use Rattle.fix_interval.specs.Tree.{Const, enc};
ghost use Rattle.fix_interval.specs.Values.{sub_of};
ghost use Rattle.scene_geom.specs.Bands.{all_bands, place_of};
ghost use Rattle.path_calc.specs.inner.BarrierAttenuations.{AreBarrierAttenuations, no_attenuations};
ghost use Rattle.path_calc.specs.inner.Hearing.{edges_among, bar_over, bars_over, where_asked, is_asked};
ghost use Rattle.path_calc.specs.inner.Ranges.{IsUnscreened, IsScreened};

use crate::energies::small_sums::minus;
use crate::workspace::{FIRST_ROOM, ScreeningBuffers, make_ready};
use fix_interval::{Iv, exact};
use path_shape::Path;
use scene_geom::Band;
use scene_parts::{Crossing, Edge, NoMemory};
use std::alloc::Global;
use std::marker::Model;
use std::mem;
use term_barrier::Screens;

/// A_bar of a path over the top in each band in dB (ISO 9613-2, 7.4): a path that nothing crosses keeps no values of eight
/// bands. Contracts see it as the list of the attenuations.
#[derive(Drop)]
pub(crate) struct BarrierAttenuations {
    bands: Option<Box<[Iv; 8]>>,
}

impl Model for BarrierAttenuations {
    ghost use Rattle.std.specs.Prelude.{List};
    ghost use Rattle.fix_interval.specs.Interval.{Interval};
    ghost use Rattle.path_calc.specs.inner.BarrierAttenuations.{attenuations_in, AreBarrierAttenuations};

    ghost Value = { List Interval };

    ghost view = { λ a. attenuations_in a.bands };

    ghost invariant = { λ a. AreBarrierAttenuations (attenuations_in a.bands) };
}

impl BarrierAttenuations {
    /// That of a path that nothing crosses.
    pub(crate) fn none() -> BarrierAttenuations
        ensures { result ≡ no_attenuations }
    {
        BarrierAttenuations { bands: None }
    }

    /// The attenuations in the bands, in spare memory where there is some.
    fn of(
        alloc: Global,
        bands: [Iv; 8],
        spare: &mut Vec<Box<[Iv; 8]>>,
    ) -> Result<BarrierAttenuations, NoMemory>
        requires { All IsScreening bands }
        ensures { IfOk result (λ attenuations. attenuations ≡ bands) }
    {
        let bands = match spare.pop() {
            Some(mut memory) => {
                *memory = bands;
                memory
            }
            None => Box::new(alloc, bands)?,
        };
        Ok(BarrierAttenuations { bands: Some(bands) })
    }

    /// Gives the memory of attenuations that are no longer read to others. Where there is no memory to note it, it is gone.
    #[inline(always)]
    pub(crate) fn give_back(&mut self, spare: &mut Vec<Box<[Iv; 8]>>)
        ensures { vec_len spare.old ≤ vec_len spare.new }
    {
        let kept = mem::replace(self, BarrierAttenuations::none());
        if let Some(memory) = kept.bands {
            if spare.is_empty() {
                drop(spare.reserve(FIRST_ROOM));
            }
            drop(spare.push(memory));
        }
    }

    /// A level in dB less what screens it in a band: where nothing does, the level itself.
    #[inline(always)]
    pub(crate) fn off(&self, level: Iv, band: Band) -> Iv
        requires { IsUnscreened level }
        ensures value { (default : Interval)
            → result ≡ sub_of level (slice_index_or self.now (place_of band) default) }
        ensures range { IsScreened result }
    {
        match &self.bands {
            Some(bands) => past_screens(level, bands[band.place()]),
            None => level,
        }
    }
}

/// A level in dB less what screens it.
#[inline(always)]
pub(crate) fn past_screens(level: Iv, screening: Iv) -> Iv
    requires level { IsUnscreened level }
    requires screening { IsScreening screening }
    ensures value { result ≡ sub_of level screening }
    ensures range { IsScreened result }
{
    minus(level, screening)
}

/// A_bar of a path in each band that is asked for (ISO 9613-2, 7.4), of the crossings of its line of sight, where its length
/// and A_gr in each band are known: 0 dB where nothing crosses it, and in the bands that nobody asks for. What the bands share
/// of the edges is calculated once.
pub(crate) fn over_top(
    alloc: Global,
    crossings: &[Crossing],
    path: &Path,
    distance: Iv,
    ground: &[Iv; 8],
    asked: &[bool; 8],
    buffers: &mut ScreeningBuffers,
) -> Result<BarrierAttenuations, NoMemory>
    requires edges { All (λ crossing. FitsEdge crossing.edge) crossings.now }
    requires ground { All IsGroundEffect ground.now }
    ensures value { IfOk result (λ bars. bars ≡ bars_over path.now
        (λ band. edges_among band crossings.now) distance ground.now (is_asked asked.now)) }
    ensures bounds { IfOk result AreBarrierAttenuations }
{
    if crossings.is_empty() {
        return Ok(BarrierAttenuations::none());
    }
    let ScreeningBuffers {
        edges,
        marks,
        shared,
        spare,
    } = buffers;
    list_edges(crossings, edges)?;
    make_ready(marks)?;
    let screens = Screens::of(shared, path, edges.as_slice(), distance)?;
    let bars = bars(marks, crossings, &screens, ground, asked)?;
    BarrierAttenuations::of(alloc, bars, spare)
}

/// A_bar in each band that is asked for, of the crossings that count there, where the memory of the marks is lent to one
/// band after the other.
fn bars(
    marks: &mut Vec<bool>,
    crossings: &[Crossing],
    screens: &Screens<'_>,
    ground: &[Iv; 8],
    asked: &[bool; 8],
) -> Result<[Iv; 8], NoMemory>
    requires edges { screens.now.edges ≡ map (λ crossing. crossing.edge) crossings.now }
    requires ground { All IsGroundEffect ground.now }
    ensures value { IfOk result (λ bars. bars ≡ bars_over screens.now.path
        (λ band. edges_among band crossings.now) screens.now.d ground.now (is_asked asked.now)) }
    ensures bounds { IfOk result (All IsScreening) }
{
    let at_63 = bar_asked(marks, crossings, screens, ground, asked, Band::Hz63)?;
    let at_125 = bar_asked(marks, crossings, screens, ground, asked, Band::Hz125)?;
    let at_250 = bar_asked(marks, crossings, screens, ground, asked, Band::Hz250)?;
    let at_500 = bar_asked(marks, crossings, screens, ground, asked, Band::Hz500)?;
    let at_1000 = bar_asked(marks, crossings, screens, ground, asked, Band::Hz1000)?;
    let at_2000 = bar_asked(marks, crossings, screens, ground, asked, Band::Hz2000)?;
    let at_4000 = bar_asked(marks, crossings, screens, ground, asked, Band::Hz4000)?;
    let at_8000 = bar_asked(marks, crossings, screens, ground, asked, Band::Hz8000)?;
    Ok([
        at_63, at_125, at_250, at_500, at_1000, at_2000, at_4000, at_8000,
    ])
}

/// A_bar in a band, of the crossings that count there, where the band is asked for.
fn bar_asked(
    marks: &mut Vec<bool>,
    crossings: &[Crossing],
    screens: &Screens<'_>,
    ground: &[Iv; 8],
    asked: &[bool; 8],
    band: Band,
) -> Result<Iv, NoMemory>
    requires edges { screens.now.edges ≡ map (λ crossing. crossing.edge) crossings.now }
    requires ground { All IsGroundEffect ground.now }
    ensures value { IfOk result (λ bar. bar ≡ where_asked (is_asked asked.now band)
        (bar_over screens.now.path (edges_among band crossings.now) screens.now.d ground.now band)) }
    ensures bounds { IfOk result IsScreening }
{
    if asked[band.place()] {
        bar(marks, crossings, screens, ground, band)
    } else {
        Ok(exact(0))
    }
}

/// A_bar in a band, of the crossings that count there.
fn bar(
    marks: &mut Vec<bool>,
    crossings: &[Crossing],
    screens: &Screens<'_>,
    ground: &[Iv; 8],
    band: Band,
) -> Result<Iv, NoMemory>
    requires edges { screens.now.edges ≡ map (λ crossing. crossing.edge) crossings.now }
    requires ground { All IsGroundEffect ground.now }
    ensures value { IfOk result (λ bar. bar ≡ bar_over screens.now.path
        (edges_among band crossings.now) screens.now.d ground.now band) }
    ensures bounds { IfOk result IsScreening }
{
    mark(marks, crossings, band)?;
    Ok(screens.a_bar(marks.as_slice(), ground[band.place()], band))
}

/// Lists the edges of some crossings, in place of what a list held.
fn list_edges(crossings: &[Crossing], edges: &mut Vec<Edge>) -> Result<(), NoMemory>
    ensures { OnOk result (edges.new.items ≡ map (λ crossing. crossing.edge) crossings.now) }
{
    make_ready(edges)?;
    for crossing in crossings {
        edges.push(crossing.edge)?;
    }
    Ok(())
}

/// Marks each of some crossings in the place of all marks: whether it counts in a band.
fn mark(marks: &mut Vec<bool>, crossings: &[Crossing], band: Band) -> Result<(), NoMemory>
    ensures { OnOk result (marks.new.items ≡ map (is_crossing_in band) crossings.now) }
{
    marks.clear();
    for crossing in crossings {
        marks.push(crossing.counts_in(band))?;
    }
    Ok(())
}
