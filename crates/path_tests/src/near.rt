//! What is found by the index of obstacles, beside what is found by a look at all sides, in a town over several hundred
//! cells.
ghost use Rattle.std.specs.Prelude.{◌≡◌, ◌<◌, ◌^◌, length, map};
ghost use Rattle.scene_parts.specs.Parts.{sides_of};
ghost use Rattle.part_grid.specs.Numbered.{numbered};

use crate::obstacles::add_obstacle;
use crate::places::at;
use image_source::{Leg, Mirror, find_leg_crossings, find_leg_crossings_near, mirror};
use part_grid::{Found, Grid};
use scene_geom::Pt;
use scene_parts::{Crossing, Ends, NoMemory, Obstacle, Shape, sides};
use sight_cut::{find_crossings, find_crossings_near, grid_of};
use std::alloc::{AllocError, Global};
use std::process::Abort;
use std::test::Fail;

/// Sources and receivers: both coordinates in mm. Some lie on the borders of cells.
const SPOTS: [(i64, i64); 7] = [
    (0, 0),
    (-65_536, 65_536),
    (655_360, -589_824),
    (-700_001, 699_999),
    (700_000, 700_000),
    (-1, -720_000),
    (196_608, 3_999_999),
];

/// How many crossings were found on a line of sight, and most on the legs of a reflection.
#[derive(Clone, Copy)]
struct Counts {
    lines: usize,
    legs: usize,
}

/// What is lent to the searches by the index, from path to path.
#[derive(Drop)]
struct Lent {
    found: Found,
    crossings: Vec<Crossing>,
    on_legs: Vec<(Leg, Crossing)>,
}

/// Adds a barrier and a building at one of 64 places.
fn add_both(alloc: Global, obstacles: &mut Vec<Obstacle>, n: u32) -> Result<(), AllocError>
    requires { n < 64 }
{
    let x = i64::from(n * 37 % 64) * 22_003 - 704_096;
    let y = i64::from(n * 23 % 64) * 21_001 - 672_032;
    let i = i64::from(n);
    let (width, depth) = (20_000 + i * 900, 70_000 - i * 700);
    let bend = [(x, y), (x + width, y + depth), (x - depth, y + width)];
    add_obstacle(alloc, obstacles, Shape::Barrier, &bend, (9_000, 800))?;
    let house = [
        (x, y + 30_000),
        (x + width, y + 30_000),
        (x + width, y + 45_000),
        (x + 1, y + 45_000),
    ];
    add_obstacle(alloc, obstacles, Shape::Building, &house, (12_000, 500))
}

/// Barriers and buildings at places that are scattered over a square of 1.4 km.
fn town(alloc: Global) -> Result<Vec<Obstacle>, AllocError> {
    let mut obstacles = Vec::new(alloc);
    for n in 0..64u32 {
        add_both(alloc, &mut obstacles, n)?;
    }
    Ok(obstacles)
}

fn ends(s: Pt, r: Pt) -> Ends {
    Ends {
        s,
        hs: 1_500,
        r,
        hr: 4_000,
    }
}

/// Asserts that two crossings are one.
fn is_same(rt: &impl Abort, a: &Crossing, b: &Crossing) {
    assert_eq!(rt; a.cut(), b.cut());
    assert_eq!(rt; a.edge.side, b.edge.side);
    assert_eq!(rt; a.edge.dir, b.edge.dir);
    assert_eq!(rt; a.bands, b.bands);
}

/// Asserts that the same crossings are in both lists.
fn are_same(rt: &impl Abort, all: &[Crossing], near: &[Crossing]) {
    assert_eq!(rt; all.len(), near.len());
    for (a, b) in all.iter().zip(near) {
        is_same(rt, a, b);
    }
}

/// Asserts that both searches find the same on a line of sight, and counts it.
fn compare_lines(
    rt: &impl Abort,
    alloc: Global,
    grid: &Grid,
    obstacles: &[Obstacle],
    ends: Ends,
    lent: &mut Lent,
) -> Result<usize, NoMemory>
    requires few { length obstacles.now < 2 ^ 32 }
    requires stands { grid.now ≡ numbered (map sides_of obstacles.now) }
{
    let mut all = Vec::new(alloc);
    find_crossings(obstacles, ends, &mut all)?;
    find_crossings_near(grid, obstacles, ends, &mut lent.found, &mut lent.crossings)?;
    are_same(rt, &all, &lent.crossings);
    Ok(all.len())
}

/// Asserts that both searches find the same on the legs of a reflection, and counts it.
fn compare_legs(
    rt: &impl Abort,
    alloc: Global,
    grid: &Grid,
    obstacles: &[Obstacle],
    m: &Mirror,
    ends: Ends,
    lent: &mut Lent,
) -> Result<usize, NoMemory>
    requires few { length obstacles.now < 2 ^ 32 }
    requires stands { grid.now ≡ numbered (map sides_of obstacles.now) }
{
    let mut all = Vec::new(alloc);
    find_leg_crossings(obstacles, m, ends, &mut all)?;
    find_leg_crossings_near(grid, obstacles, m, ends, &mut lent.found, &mut lent.on_legs)?;
    are_same_on_legs(rt, &all, &lent.on_legs);
    Ok(all.len())
}

/// Asserts that both searches find the same on the legs of all reflections in a wall, and counts the most of them.
fn compare_wall(
    rt: &impl Abort,
    alloc: Global,
    grid: &Grid,
    obstacles: &[Obstacle],
    wall: &Obstacle,
    ends: Ends,
    lent: &mut Lent,
) -> Result<usize, NoMemory>
    requires few { length obstacles.now < 2 ^ 32 }
    requires stands { grid.now ≡ numbered (map sides_of obstacles.now) }
{
    let mut legs = 0;
    for i in 0..sides(wall) {
        if let Some(m) = mirror(wall, i, ends.s, ends.hs, ends.r, ends.hr) {
            let count = compare_legs(rt, alloc, grid, obstacles, &m, ends, lent)?;
            legs = count.max(legs);
        }
    }
    Ok(legs)
}

/// Asserts that both searches find the same on a line of sight, and on the legs of all reflections between its ends.
fn compare_by(
    rt: &impl Abort,
    alloc: Global,
    grid: &Grid,
    obstacles: &[Obstacle],
    ends: Ends,
    lent: &mut Lent,
) -> Result<Counts, NoMemory>
    requires few { length obstacles.now < 2 ^ 32 }
    requires stands { grid.now ≡ numbered (map sides_of obstacles.now) }
{
    let lines = compare_lines(rt, alloc, grid, obstacles, ends, lent)?;
    let mut legs = 0;
    for wall in obstacles {
        legs = compare_wall(rt, alloc, grid, obstacles, wall, ends, lent)?.max(legs);
    }
    Ok(Counts { lines, legs })
}

/// The same, with an index of these obstacles.
fn compare(
    rt: &impl Abort,
    alloc: Global,
    obstacles: &[Obstacle],
    ends: Ends,
    lent: &mut Lent,
) -> Result<Counts, NoMemory> {
    assert!(rt; obstacles.len() < 1000);
    let grid = grid_of(alloc, obstacles)?;
    compare_by(rt, alloc, &grid, obstacles, ends, lent)
}

/// The same between all spots: the most that were found.
fn compare_all(
    rt: &impl Abort,
    alloc: Global,
    obstacles: &[Obstacle],
    lent: &mut Lent,
) -> Result<Counts, NoMemory> {
    let (mut lines, mut legs) = (0, 0);
    for s in &SPOTS {
        for r in &SPOTS {
            let counts = compare(rt, alloc, obstacles, ends(at(*s), at(*r)), lent)?;
            lines = counts.lines.max(lines);
            legs = counts.legs.max(legs);
        }
    }
    Ok(Counts { lines, legs })
}

/// Asserts that the same crossings of legs are in both lists.
fn are_same_on_legs(rt: &impl Abort, all: &[(Leg, Crossing)], near: &[(Leg, Crossing)]) {
    assert_eq!(rt; all.len(), near.len());
    for (a, b) in all.iter().zip(near) {
        assert_eq!(rt; a.0, b.0);
        is_same(rt, &a.1, &b.1);
    }
}

#[test]
fn the_index_finds_what_is_found_without_it(rt: HostRuntime) -> Result<(), Fail> {
    let obstacles = town(rt.alloc())?;
    let mut lent = Lent {
        found: Found::new(rt.alloc()),
        crossings: Vec::new(rt.alloc()),
        on_legs: Vec::new(rt.alloc()),
    };
    let Ok(most) = compare_all(&rt, rt.alloc(), &obstacles, &mut lent) else {
        return Err(AllocError.into());
    };
    assert!(rt; most.lines > 5 && most.legs > 5);
    Ok(())
}
