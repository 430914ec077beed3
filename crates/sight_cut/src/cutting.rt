//! The search for sides that cross a line of sight.
ghost use Rattle.std.specs.Prelude.{◌≡◌, ◌<◌, ◌≤◌, ◌*◌, ◌^◌, ◌++◌, [], length, map, filter, IfOk, OnOk};
ghost use Rattle.scene_geom.specs.Fraction.{FitsCrossing};
ghost use Rattle.scene_parts.specs.Parts.{sides_of};
ghost use Rattle.scene_parts.specs.Crossings.{rises_above, cut_of, is_crossing_in};
ghost use Rattle.sight_cut.specs.Cuts.{edge_of, crossing_of, before_all, crossings_along, crossings_of, cuts_of};

use scene_geom::{Band, Frac, Pt, Side, crosses, dir_of};
use scene_parts::{Crossing, Cut, Edge, Ends, NoMemory, Obstacle, bands_of, side_of, sides};
use std::alloc::Global;

/// The cuts of the line of sight from source to receiver in a band: all sides of all obstacles that are large enough in
/// it and cross the line, in the order of obstacles and sides, each with its place, its height in mm, and whether it
/// rises above the line of sight.
pub fn cuts(
    alloc: Global,
    obstacles: &[Obstacle],
    s: Pt,
    hs: u32,
    r: Pt,
    hr: u32,
    band: Band,
) -> Result<Vec<Cut>, NoMemory>
    requires few { length obstacles.now < 2 ^ 32 }
    ensures { IfOk result (λ cuts. cuts.items
        ≡ cuts_of band (record { s = s; hs = hs; r = r; hr = hr }) obstacles.now) }
{
    let mut crossings = Vec::new(alloc);
    find_crossings(obstacles, Ends { s, hs, r, hr }, &mut crossings)?;
    cuts_in(alloc, crossings.as_slice(), band)
}

/// The cuts of those crossings whose obstacle is large enough in a band.
pub(crate) fn cuts_in(
    alloc: Global,
    crossings: &[Crossing],
    band: Band,
) -> Result<Vec<Cut>, NoMemory>
    ensures { IfOk result (λ cuts. cuts.items
        ≡ map cut_of (filter (is_crossing_in band) crossings.now)) }
{
    let mut cuts = Vec::new(alloc);
    for crossing in crossings {
        if crossing.counts_in(band) {
            cuts.push(crossing.cut())?;
        }
    }
    Ok(cuts)
}

/// All sides of all obstacles that cross the line of sight, in their order, in place of what the list held.
pub fn find_crossings(
    obstacles: &[Obstacle],
    ends: Ends,
    crossings: &mut Vec<Crossing>,
) -> Result<(), NoMemory>
    requires few { length obstacles.now < 2 ^ 32 }
    ensures { OnOk result (crossings.new.items ≡ crossings_of ends obstacles.now) }
{
    crossings.clear();
    let mut number = 0u32;
    for obstacle in obstacles {
        add_crossings(crossings, obstacle, number, ends)?;
        number += 1;
    }
    Ok(())
}

/// Adds the crossings of an obstacle.
fn add_crossings(
    found: &mut Vec<Crossing>,
    obstacle: &Obstacle,
    number: u32,
    ends: Ends,
) -> Result<(), NoMemory>
    ensures { OnOk result (found.new.items ≡ found.old.items
        ++ crossings_along ends number 0 obstacle.now (sides_of obstacle.now)) }
{
    for i in 0..sides(obstacle) {
        let side = side_of(obstacle, i);
        add_crossing(found, obstacle, (number, i), side, ends)?;
    }
    Ok(())
}

/// Adds a side of an obstacle as a crossing, if it is one. The obstacle and the side have these numbers.
pub(crate) fn add_crossing(
    found: &mut Vec<Crossing>,
    obstacle: &Obstacle,
    numbers: (u32, u32),
    side: Side,
    ends: Ends,
) -> Result<(), NoMemory>
    ensures { OnOk result (found.new.items ≡ found.old.items
        ++ before_all (crossing_of ends numbers.0 numbers.1 obstacle.now side) []) }
{
    match edge(side, obstacle.h, ends) {
        None => Ok(()),
        Some(edge) => {
            found.push(Crossing {
                obstacle: numbers.0,
                side: numbers.1,
                edge,
                bands: bands_of(obstacle, ends),
            })?;
            Ok(())
        }
    }
}

/// The edge of a side, where it crosses the line of sight.
fn edge(side: Side, h: u32, ends: Ends) -> Option<Edge>
    ensures { result ≡ edge_of ends h side }
{
    let t = crosses(side, ends.s, ends.r)?;
    Some(Edge {
        t,
        side,
        dir: dir_of(ends.s, ends.r),
        h,
        above: rises(ends, h, t),
    })
}

/// Whether an edge of height `h` at a place of the line rises above the line of sight. Both heights are multiplied by the
/// place's divisor, and what is taken off one stands on the other side.
fn rises(ends: Ends, h: u32, t: Frac) -> bool
    requires { FitsCrossing t }
    ensures { result ≡ rises_above ends h t }
{
    let n = t.n.unsigned_abs() as u64;
    let d = t.d.unsigned_abs() as u64;
    part(ends.hs, d) + part(ends.hr, n) < part(h, d) + part(ends.hs, n)
}

/// A height times a number of the plan.
fn part(h: u32, n: u64) -> u128
    requires { n ≤ 256000000000000 }
    ensures value { result ≡ h * n }
    ensures bound { result < 2 ^ 96 }
{
    u128::from(h) * u128::from(n)
}
