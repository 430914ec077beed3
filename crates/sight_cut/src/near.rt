//! The search for sides that cross a line of sight among those near it.
ghost use Rattle.std.specs.Prelude.{◌≡◌, ◌<◌, ◌^◌, ◌++◌, length, map, IfOk, OnOk};
ghost use Rattle.scene_parts.specs.Parts.{sides_of};
ghost use Rattle.part_grid.specs.Numbered.{numbered, numbered_sides};
ghost use Rattle.sight_cut.specs.Cuts.{crossings_of, cuts_of};

use crate::cutting::{add_crossing, cuts_in};
use part_grid::{Found, Grid, Owned};
use scene_geom::{Band, Pt};
use scene_parts::{Crossing, Cut, Ends, NoMemory, Obstacle, side_of, sides};
use std::alloc::Global;

/// The index of all sides of some obstacles.
pub fn grid_of(alloc: Global, obstacles: &[Obstacle]) -> Result<Grid, NoMemory>
    requires few { length obstacles.now < 2 ^ 32 }
    ensures { IfOk result (λ grid. grid ≡ numbered (map sides_of obstacles.now)) }
{
    let mut owned = Vec::new(alloc);
    let mut number = 0u32;
    for obstacle in obstacles {
        add_sides(&mut owned, obstacle, number)?;
        number += 1;
    }
    Ok(Grid::build(alloc, owned.as_slice())?)
}

/// Adds the sides of an obstacle, which has this number.
fn add_sides(owned: &mut Vec<Owned>, obstacle: &Obstacle, number: u32) -> Result<(), NoMemory>
    ensures { OnOk result (owned.new.items
        ≡ owned.old.items ++ numbered_sides (number, sides_of obstacle.now)) }
{
    for index in 0..sides(obstacle) {
        let side = side_of(obstacle, index);
        owned.push(Owned {
            obstacle: number,
            index,
            side,
        })?;
    }
    Ok(())
}

/// What `cuts` gives, by the index of the obstacles.
pub fn cuts_near(
    alloc: Global,
    grid: &Grid,
    obstacles: &[Obstacle],
    s: Pt,
    hs: u32,
    r: Pt,
    hr: u32,
    band: Band,
) -> Result<Vec<Cut>, NoMemory>
    requires stands { grid.now ≡ numbered (map sides_of obstacles.now) }
    ensures { IfOk result (λ cuts. cuts.items
        ≡ cuts_of band (record { s = s; hs = hs; r = r; hr = hr }) obstacles.now) }
{
    let mut found = Found::new(alloc);
    let ends = Ends { s, hs, r, hr };
    let mut crossings = Vec::new(alloc);
    find_crossings_near(grid, obstacles, ends, &mut found, &mut crossings)?;
    cuts_in(alloc, crossings.as_slice(), band)
}

/// What `find_crossings` finds, by the index of the obstacles: only the sides near the line of sight are looked at. The
/// buffers are lent to the search.
pub fn find_crossings_near(
    grid: &Grid,
    obstacles: &[Obstacle],
    ends: Ends,
    found: &mut Found,
    crossings: &mut Vec<Crossing>,
) -> Result<(), NoMemory>
    requires stands { grid.now ≡ numbered (map sides_of obstacles.now) }
    ensures { OnOk result (crossings.new.items ≡ crossings_of ends obstacles.now) }
{
    crossings.clear();
    grid.find_near(ends.s, ends.r, found)?;
    for near in found.sides() {
        let obstacle = &obstacles[near.obstacle as usize];
        let numbers = (near.obstacle, near.index);
        add_crossing(crossings, obstacle, numbers, near.side, ends)?;
    }
    Ok(())
}
