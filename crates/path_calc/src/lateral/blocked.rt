//! What is in the way of a string, among all sides or among those near its segments.
ghost use Rattle.std.specs.Prelude.{◌≡◌, ◌&&◌, ◌||◌, map, OnOk};
ghost use Rattle.std.specs.List.{list_any};
ghost use Rattle.scene_geom.specs.Crossing.{blocks_of};
ghost use Rattle.scene_parts.specs.Parts.{sides_of};
ghost use Rattle.scene_parts.specs.Crossings.{counts_in};
ghost use Rattle.part_grid.specs.Numbered.{numbered};
ghost use Rattle.edge_chain.specs.Chain.{blocks_chain};
ghost use Rattle.path_calc.specs.LateralPaths.{is_in_the_way};
ghost use Rattle.path_calc.specs.inner.Strings.{is_within};
ghost use Rattle.scene_geom.specs.declared.band.Band.{Band};

use edge_chain::is_blocked;
use part_grid::{Found, Grid};
use scene_geom::{Pt, Side, blocks};
use scene_parts::{Breadth, Ends, NoMemory, Obstacle, side_of, sides};

/// For how many breadths room is made at once.
const BREADTHS_AT_FIRST: usize = 16;

/// Finds how broad those obstacles are of which a side crosses a segment of the string that turns at these corners. It
/// stands in place of what the list held.
pub(crate) fn find_blocking(
    obstacles: &[Obstacle],
    ends: Ends,
    corners: &[Pt],
    blocking: &mut Vec<Breadth>,
) -> Result<(), NoMemory>
    ensures { OnOk result ((band : Band) → list_any (is_within band) blocking.new.items
        ≡ list_any (is_in_the_way band ends corners.now) obstacles.now) }
{
    blocking.clear();
    blocking.reserve(BREADTHS_AT_FIRST)?;
    for obstacle in obstacles {
        if obstructs(obstacle, ends, corners) {
            blocking.push(Breadth::of(obstacle, ends.s, ends.r))?;
        }
    }
    Ok(())
}

/// Whether a side of an obstacle crosses a segment of a string.
fn obstructs(obstacle: &Obstacle, ends: Ends, corners: &[Pt]) -> bool
    ensures { result ≡ list_any (blocks_chain corners.now ends.s ends.r) (sides_of obstacle.now) }
{
    for i in 0..sides(obstacle) {
        if is_blocked(corners, ends.s, ends.r, side_of(obstacle, i)) {
            return true;
        }
    }
    false
}

/// Finds what `find_blocking` does in each band, by the index of the obstacles: for each segment only the sides near it
/// are looked at. An obstacle may be told more than once. The buffers are lent to the search.
pub(crate) fn find_blocking_near(
    grid: &Grid,
    obstacles: &[Obstacle],
    ends: Ends,
    corners: &[Pt],
    found: &mut Found,
    blocking: &mut Vec<Breadth>,
) -> Result<(), NoMemory>
    requires stands { grid.now ≡ numbered (map sides_of obstacles.now) }
    ensures { OnOk result ((band : Band) → list_any (is_within band) blocking.new.items
        ≡ list_any (is_in_the_way band ends corners.now) obstacles.now) }
{
    blocking.clear();
    blocking.reserve(BREADTHS_AT_FIRST)?;
    let mut from = ends.s;
    for corner in corners {
        let segment = Side { from, to: *corner };
        add_blocking(blocking, grid, obstacles, ends, segment, found)?;
        from = *corner;
    }
    let last = Side { from, to: ends.r };
    add_blocking(blocking, grid, obstacles, ends, last, found)?;
    Ok(())
}

/// Adds how broad those obstacles are of which a side crosses a segment of a string.
fn add_blocking(
    blocking: &mut Vec<Breadth>,
    grid: &Grid,
    obstacles: &[Obstacle],
    ends: Ends,
    segment: Side,
    found: &mut Found,
) -> Result<(), NoMemory>
    requires stands { grid.now ≡ numbered (map sides_of obstacles.now) }
    ensures { OnOk result ((band : Band) → list_any (is_within band) blocking.new.items
        ≡ (list_any (is_within band) blocking.old.items
        || list_any (λ o. counts_in band ends o
        && list_any (λ side. blocks_of side segment.from segment.to) (sides_of o)) obstacles.now)) }
{
    grid.find_near(segment.from, segment.to, found)?;
    for near in found.sides() {
        let obstacle = &obstacles[near.obstacle as usize];
        if blocks(near.side, segment.from, segment.to) {
            blocking.push(Breadth::of(obstacle, ends.s, ends.r))?;
        }
    }
    Ok(())
}
