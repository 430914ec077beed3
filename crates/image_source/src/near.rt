//! The search for sides that cross the legs of a reflection among those near each leg.
ghost use Rattle.std.specs.Prelude.{◌≡◌, ◌++◌, map, filter, IfOk, OnOk};
ghost use Rattle.scene_parts.specs.Parts.{sides_of};
ghost use Rattle.part_grid.specs.Numbered.{numbered};
ghost use Rattle.image_source.specs.LegCuts.{crossings_from, leg_crossings_of, leg_cuts_of};
ghost use Rattle.image_source.specs.inner.Near.{is_near};

use crate::image::Mirror;
use crate::leg::Leg;
use crate::search::{add_crossing, cuts_in};
use part_grid::{Found, Grid};
use scene_geom::{Band, Pt, rest_after};
use scene_parts::{Crossing, Cut, Ends, NoMemory, Obstacle};
use std::alloc::Global;

/// What `leg_cuts` gives, by the index of the obstacles.
pub fn leg_cuts_near(
    alloc: Global,
    grid: &Grid,
    obstacles: &[Obstacle],
    m: &Mirror,
    s: Pt,
    hs: u32,
    r: Pt,
    hr: u32,
    band: Band,
) -> Result<Vec<(Leg, Cut)>, NoMemory>
    requires stands { grid.now ≡ numbered (map sides_of obstacles.now) }
    ensures { IfOk result (λ cuts. cuts.items
        ≡ leg_cuts_of band m.now (record { s = s; hs = hs; r = r; hr = hr }) obstacles.now) }
{
    let mut found = Found::new(alloc);
    let ends = Ends { s, hs, r, hr };
    let mut crossings = Vec::new(alloc);
    find_leg_crossings_near(grid, obstacles, m, ends, &mut found, &mut crossings)?;
    cuts_in(alloc, crossings.as_slice(), band)
}

/// What `find_leg_crossings` finds, by the index of the obstacles: of their sides only those near a leg are looked at. The
/// buffers are lent to the search.
pub fn find_leg_crossings_near(
    grid: &Grid,
    obstacles: &[Obstacle],
    m: &Mirror,
    ends: Ends,
    found: &mut Found,
    crossings: &mut Vec<(Leg, Crossing)>,
) -> Result<(), NoMemory>
    requires stands { grid.now ≡ numbered (map sides_of obstacles.now) }
    ensures { OnOk result (crossings.new.items
        ≡ leg_crossings_of m.now ends obstacles.now) }
{
    crossings.clear();
    find_near_leg(grid, Leg::First, m, ends, found)?;
    add_near(crossings, grid, obstacles, Leg::First, m, ends, found)?;
    find_near_leg(grid, Leg::Second, m, ends, found)?;
    add_near(crossings, grid, obstacles, Leg::Second, m, ends, found)
}

/// Finds the sides whose cells meet a leg.
fn find_near_leg(
    grid: &Grid,
    leg: Leg,
    m: &Mirror,
    ends: Ends,
    found: &mut Found,
) -> Result<(), NoMemory>
    ensures { OnOk result (found.new ≡ filter (is_near leg m.now ends) grid.now) }
{
    match leg {
        Leg::First => grid.find_near_way(ends.s, m.first, m.p, found)?,
        Leg::Second => grid.find_near_way(ends.r, m.second, rest_after(m.p), found)?,
    }
    Ok(())
}

/// Adds the crossings of a leg, near which these sides were found.
fn add_near(
    crossings: &mut Vec<(Leg, Crossing)>,
    grid: &Grid,
    obstacles: &[Obstacle],
    leg: Leg,
    m: &Mirror,
    ends: Ends,
    found: &Found,
) -> Result<(), NoMemory>
    requires stands { grid.now ≡ numbered (map sides_of obstacles.now) }
    requires near { found.now ≡ filter (is_near leg m.now ends) grid.now }
    ensures { OnOk result (crossings.new.items ≡ crossings.old.items
        ++ crossings_from leg m.now ends 0 obstacles.now) }
{
    for near in found.sides() {
        let obstacle = &obstacles[near.obstacle as usize];
        let numbers = (near.obstacle, near.index);
        add_crossing(crossings, obstacle, numbers, near.side, leg, m, ends)?;
    }
    Ok(())
}
