//! Cuts of lines of sight, by an independent exact program.
ghost use Rattle.std.specs.Prelude.{◌<◌, ◌^◌, length};

use crate::obstacles::{Wall, obstacles};
use crate::places::at;
use scene_geom::Band;
use scene_parts::{Cut, NoMemory, Obstacle, Shape};
use sight_cut::{cuts, cuts_near, grid_of};
use std::alloc::Global;
use std::process::Abort;
use std::test::Fail;

/// An obstacle and a side by their numbers, the place as a fraction, and whether it rises above the line of sight.
type Expected = (u32, u32, i128, i128, bool);

struct Case {
    obstacles: &'static [Wall],
    /// Both coordinates and the height, in mm.
    source: (i64, i64, u32),
    receiver: (i64, i64, u32),
    band: Band,
    cuts: &'static [Expected],
}

const CASES: &[Case] = &[
    // The top on the line of sight, one millimetre below and one above.
    Case {
        obstacles: &[
            (Shape::Barrier, &[(50000, -50000), (50000, 50000)], 2000, 0),
            (Shape::Barrier, &[(50000, -50000), (50000, 50000)], 1999, 0),
            (Shape::Barrier, &[(50000, -50000), (50000, 50000)], 2001, 0),
        ],
        source: (0, 0, 2000),
        receiver: (100000, 0, 2000),
        band: Band::Hz1000,
        cuts: &[
            (0, 0, 5000000000, 10000000000, false),
            (1, 0, 5000000000, 10000000000, false),
            (2, 0, 5000000000, 10000000000, true),
        ],
    },
    // 5 m across the line: too small at 63 Hz, large enough at 125 Hz.
    Case {
        obstacles: &[(Shape::Barrier, &[(50000, -2500), (50000, 2500)], 4000, 0)],
        source: (0, 0, 2000),
        receiver: (100000, 0, 2000),
        band: Band::Hz63,
        cuts: &[],
    },
    Case {
        obstacles: &[(Shape::Barrier, &[(50000, -2500), (50000, 2500)], 4000, 0)],
        source: (0, 0, 2000),
        receiver: (100000, 0, 2000),
        band: Band::Hz125,
        cuts: &[(0, 0, 250000000, 500000000, true)],
    },
    // At 500 Hz the wavelength is 680 mm: as large as that, and 1 mm larger.
    Case {
        obstacles: &[
            (Shape::Barrier, &[(50000, -340), (50000, 340)], 4000, 0),
            (Shape::Barrier, &[(50000, -340), (50000, 341)], 4000, 0),
        ],
        source: (0, 0, 2000),
        receiver: (100000, 0, 2000),
        band: Band::Hz500,
        cuts: &[(1, 0, 34050000, 68100000, true)],
    },
    // A building, from the second obstacle on; the first lies along the line.
    Case {
        obstacles: &[
            (Shape::Barrier, &[(10000, 0), (90000, 0)], 10000, 0),
            (
                Shape::Building,
                &[
                    (40000, -50000),
                    (60000, -50000),
                    (60000, 50000),
                    (40000, 50000),
                ],
                20000,
                0,
            ),
        ],
        source: (0, 0, 2000),
        receiver: (100000, 0, 2000),
        band: Band::Hz8000,
        cuts: &[
            (1, 1, 6000000000, 10000000000, true),
            (1, 3, 4000000000, 10000000000, true),
        ],
    },
    // A corner that touches the line from the left gives two cuts, from the right none.
    Case {
        obstacles: &[
            (
                Shape::Barrier,
                &[(40000, 30000), (50000, 0), (60000, 30000)],
                9000,
                0,
            ),
            (
                Shape::Barrier,
                &[(40000, -30000), (50000, 0), (60000, -30000)],
                9000,
                0,
            ),
        ],
        source: (0, 0, 2000),
        receiver: (100000, 0, 2000),
        band: Band::Hz1000,
        cuts: &[
            (0, 0, 1500000000, 3000000000, true),
            (0, 1, 1500000000, 3000000000, true),
        ],
    },
    // Behind the source, beyond the receiver, and through either.
    Case {
        obstacles: &[
            (Shape::Barrier, &[(-1, -50000), (-1, 50000)], 9000, 0),
            (Shape::Barrier, &[(0, -50000), (0, 50000)], 9000, 0),
            (
                Shape::Barrier,
                &[(100000, -50000), (100000, 50000)],
                9000,
                0,
            ),
            (
                Shape::Barrier,
                &[(100001, -50000), (100001, 50000)],
                9000,
                0,
            ),
        ],
        source: (0, 0, 2000),
        receiver: (100000, 0, 2000),
        band: Band::Hz1000,
        cuts: &[],
    },
    // Source and receiver in one place in plan.
    Case {
        obstacles: &[(Shape::Barrier, &[(-50000, -50000), (50000, 50000)], 9000, 0)],
        source: (0, 0, 2000),
        receiver: (0, 0, 9000),
        band: Band::Hz8000,
        cuts: &[],
    },
    // The source inside a building, and different heights.
    Case {
        obstacles: &[(
            Shape::Building,
            &[
                (-30000, -30000),
                (30000, -30000),
                (30000, 30000),
                (-30000, 30000),
            ],
            15000,
            0,
        )],
        source: (0, 0, 1000),
        receiver: (100000, 0, 30001),
        band: Band::Hz250,
        cuts: &[(0, 1, 1800000000, 6000000000, true)],
    },
    // From corner to corner of the map.
    Case {
        obstacles: &[(
            Shape::Barrier,
            &[(-80000, 90000), (80000, -60000)],
            100000,
            0,
        )],
        source: (-4000000, -4000000, 100000),
        receiver: (4000000, 4000000, 1),
        band: Band::Hz63,
        cuts: &[(0, 0, 1242400000000, 2480000000000, true)],
    },
];

fn told(cut: &Cut) -> Expected {
    (cut.obstacle, cut.side, cut.t.n, cut.t.d, cut.above)
}

/// Asserts that this cut is found.
fn is_found(rt: &impl Abort, cut: &Cut, expected: &Expected) {
    assert_eq!(rt; told(cut), *expected);
}

/// Asserts that these cuts are found.
fn are_found(rt: &impl Abort, found: &[Cut], expected: &[Expected]) {
    assert_eq!(rt; found.len(), expected.len());
    for (cut, expected) in found.iter().zip(expected) {
        is_found(rt, cut, expected);
    }
}

/// Asserts where the line of a case is cut, as found among all sides.
fn is_cut_among_all(
    rt: &impl Abort,
    alloc: Global,
    case: &Case,
    obstacles: &[Obstacle],
) -> Result<(), NoMemory>
    requires few { length obstacles.now < 2 ^ 32 }
{
    let (sx, sy, hs) = case.source;
    let (rx, ry, hr) = case.receiver;
    let (s, r) = (at((sx, sy)), at((rx, ry)));
    let found = cuts(alloc, obstacles, s, hs, r, hr, case.band)?;
    are_found(rt, &found, case.cuts);
    Ok(())
}

/// Asserts where the line of a case is cut, as found by the index of sides.
fn is_cut_near(
    rt: &impl Abort,
    alloc: Global,
    case: &Case,
    obstacles: &[Obstacle],
) -> Result<(), NoMemory>
    requires few { length obstacles.now < 2 ^ 32 }
{
    let (sx, sy, hs) = case.source;
    let (rx, ry, hr) = case.receiver;
    let (s, r) = (at((sx, sy)), at((rx, ry)));
    let grid = grid_of(alloc, obstacles)?;
    let near = cuts_near(alloc, &grid, obstacles, s, hs, r, hr, case.band)?;
    are_found(rt, &near, case.cuts);
    Ok(())
}

/// Asserts where these obstacles cut the line of a case.
fn is_cut(
    rt: &impl Abort,
    alloc: Global,
    case: &Case,
    obstacles: &[Obstacle],
) -> Result<(), NoMemory> {
    assert!(rt; obstacles.len() == case.obstacles.len() && obstacles.len() < 100);
    is_cut_among_all(rt, alloc, case, obstacles)?;
    is_cut_near(rt, alloc, case, obstacles)
}

/// Asserts where the obstacles of a case cut its line.
fn expect_cuts(rt: &impl Abort, alloc: Global, case: &Case) -> Result<(), NoMemory> {
    let obstacles = obstacles(alloc, case.obstacles)?;
    is_cut(rt, alloc, case, &obstacles)
}

#[test]
fn lines_of_sight_are_cut(rt: HostRuntime) -> Result<(), Fail> {
    for case in CASES {
        expect_cuts(&rt, rt.alloc(), case)?;
    }
    Ok(())
}
