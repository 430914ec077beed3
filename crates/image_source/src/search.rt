//! The search for sides that cross the legs of a reflection.
ghost use Rattle.std.specs.Prelude.{◌≡◌, ◌<◌, ◌≤◌, ◌*◌, ◌^◌, ◌++◌, [], length, map, filter, unsigned_abs, IfOk, IfSome, OnOk};
ghost use Rattle.scene_geom.specs.Direction.{FitsDirection};
ghost use Rattle.scene_geom.specs.Fraction.{FitsPlace, FitsEnd, rest_of};
ghost use Rattle.scene_parts.specs.Parts.{sides_of};
ghost use Rattle.image_source.specs.LegCuts.{edge_on, crossing_on, before_all, crossings_along, crossings_from, leg_crossings_of, leg_cuts_of};
ghost use Rattle.image_source.specs.LegCuts.{is_leg_crossing_in, leg_cut_of};
ghost use Rattle.image_source.specs.LegCuts as form;

use crate::image::Mirror;
use crate::leg::Leg;
use crate::placing::{height_at, sight_height};
use scene_geom::{Band, Dir, Frac, Pt, Side, hits, lies_inside, rest_after};
use scene_parts::{Crossing, Cut, Edge, Ends, NoMemory, Obstacle, bands_of, side_of, sides};
use std::alloc::Global;

/// The cuts of both legs of a reflection in a band: all sides of all obstacles that are large enough in it and cross a leg
/// strictly between its ends, in the order of legs, obstacles and sides, each with its place on the unfolded path from the
/// source, its height in mm, and whether it rises above the line of sight. The reflection is one from `s` to `r`.
pub fn leg_cuts(
    alloc: Global,
    obstacles: &[Obstacle],
    m: &Mirror,
    s: Pt,
    hs: u32,
    r: Pt,
    hr: u32,
    band: Band,
) -> Result<Vec<(Leg, Cut)>, NoMemory>
    requires few { length obstacles.now < 2 ^ 32 }
    ensures { IfOk result (λ cuts. cuts.items
        ≡ leg_cuts_of band m.now (record { s = s; hs = hs; r = r; hr = hr }) obstacles.now) }
{
    let mut crossings = Vec::new(alloc);
    find_leg_crossings(obstacles, m, Ends { s, hs, r, hr }, &mut crossings)?;
    cuts_in(alloc, crossings.as_slice(), band)
}

/// The cuts of those crossings whose obstacle is large enough in a band.
pub(crate) fn cuts_in(
    alloc: Global,
    crossings: &[(Leg, Crossing)],
    band: Band,
) -> Result<Vec<(Leg, Cut)>, NoMemory>
    ensures { IfOk result (λ cuts. cuts.items
        ≡ map leg_cut_of (filter (is_leg_crossing_in band) crossings.now)) }
{
    let mut cuts = Vec::new(alloc);
    for (leg, crossing) in crossings {
        if crossing.counts_in(band) {
            cuts.push((*leg, crossing.cut()))?;
        }
    }
    Ok(cuts)
}

/// All sides of all obstacles that cross a leg of a reflection between these ends, in the order of legs, obstacles and
/// sides, each with the bands in which its obstacle is large enough, in place of what the list held.
pub fn find_leg_crossings(
    obstacles: &[Obstacle],
    m: &Mirror,
    ends: Ends,
    crossings: &mut Vec<(Leg, Crossing)>,
) -> Result<(), NoMemory>
    requires few { length obstacles.now < 2 ^ 32 }
    ensures { OnOk result (crossings.new.items ≡ leg_crossings_of m.now ends obstacles.now) }
{
    crossings.clear();
    add_leg(crossings, obstacles, Leg::First, m, ends)?;
    add_leg(crossings, obstacles, Leg::Second, m, ends)
}

/// Adds the crossings of all obstacles with a leg.
fn add_leg(
    found: &mut Vec<(Leg, Crossing)>,
    obstacles: &[Obstacle],
    leg: Leg,
    m: &Mirror,
    ends: Ends,
) -> Result<(), NoMemory>
    requires few { length obstacles.now < 2 ^ 32 }
    ensures { OnOk result (found.new.items ≡ found.old.items
        ++ crossings_from leg m.now ends 0 obstacles.now) }
{
    let mut number = 0u32;
    for obstacle in obstacles {
        add_crossings(found, obstacle, number, leg, m, ends)?;
        number += 1;
    }
    Ok(())
}

/// Adds the crossings of an obstacle, which has this number.
fn add_crossings(
    found: &mut Vec<(Leg, Crossing)>,
    obstacle: &Obstacle,
    number: u32,
    leg: Leg,
    m: &Mirror,
    ends: Ends,
) -> Result<(), NoMemory>
    ensures { OnOk result (found.new.items ≡ found.old.items
        ++ crossings_along leg m.now ends number 0 obstacle.now (sides_of obstacle.now)) }
{
    for i in 0..sides(obstacle) {
        let side = side_of(obstacle, i);
        add_crossing(found, obstacle, (number, i), side, leg, m, ends)?;
    }
    Ok(())
}

/// Adds a side of an obstacle as a crossing, if it is one. The obstacle and the side have these numbers.
pub(crate) fn add_crossing(
    found: &mut Vec<(Leg, Crossing)>,
    obstacle: &Obstacle,
    numbers: (u32, u32),
    side: Side,
    leg: Leg,
    m: &Mirror,
    ends: Ends,
) -> Result<(), NoMemory>
    ensures { OnOk result (found.new.items ≡ found.old.items
        ++ before_all (crossing_on leg m.now ends numbers.0 numbers.1 obstacle.now side) []) }
{
    match edge(leg, m, ends, obstacle.h, side) {
        None => Ok(()),
        Some(edge) => {
            let crossing = Crossing {
                obstacle: numbers.0,
                side: numbers.1,
                edge,
                bands: bands_of(obstacle, ends),
            };
            found.push((leg, crossing))?;
            Ok(())
        }
    }
}

/// The edge of a side of an obstacle of height `h`, where it crosses a leg.
fn edge(leg: Leg, m: &Mirror, ends: Ends, h: u32, side: Side) -> Option<Edge>
    ensures { result ≡ edge_on leg m.now ends h side }
{
    let t = place_on(leg, m, ends, side)?;
    Some(Edge {
        t,
        side,
        dir: dir_on(leg, m),
        h,
        above: sight_height(ends, t) < height_at(h, t),
    })
}

/// The direction of a leg, towards the wall.
fn dir_on(leg: Leg, m: &Mirror) -> Dir
    ensures { result ≡ form.dir_on leg m.now }
{
    match leg {
        Leg::First => m.first,
        Leg::Second => m.second,
    }
}

/// Where a side crosses a leg, as a fraction of the unfolded path from the source.
fn place_on(leg: Leg, m: &Mirror, ends: Ends, side: Side) -> Option<Frac>
    ensures value { result ≡ form.place_on leg m.now ends side }
    ensures above { IfSome result (λ t. unsigned_abs t.n ≤ 51660000000000000000000000) }
    ensures below { IfSome result (λ t. unsigned_abs t.d ≤ 51660000000000000000000000) }
{
    match leg {
        Leg::First => place_up_to(m.p, side, ends.s, m.first),
        Leg::Second => {
            let place = place_up_to(rest_after(m.p), side, ends.r, m.second)?;
            Some(turned_round(place))
        }
    }
}

/// Where a side crosses the way from a point along a direction, strictly before an end.
fn place_up_to(end: Frac, side: Side, from: Pt, dir: Dir) -> Option<Frac>
    requires end { FitsEnd end }
    requires dir { FitsDirection dir }
    ensures value { result ≡ form.place_up_to end side from dir }
    ensures fits { IfSome result FitsPlace }
{
    let place = hits(side, from, dir)?;
    if lies_inside(place, end) {
        Some(place)
    } else {
        None
    }
}

/// A place as counted from the other end of a path.
fn turned_round(place: Frac) -> Frac
    requires { FitsPlace place }
    ensures { result ≡ rest_of place }
{
    Frac {
        n: place.d - place.n,
        d: place.d,
    }
}
