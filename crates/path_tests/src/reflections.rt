//! Reflections, cuts of their legs and condition (19), by an independent exact program.
ghost use Rattle.std.specs.Prelude.{◌<◌, ◌^◌, length};

use crate::obstacles::{Wall, obstacles};
use crate::places;
use fix_interval::{Truth, hull, ratio};
use image_source::{Leg, Mirror, big_enough, leg_cuts, leg_cuts_near, mirror};
use scene_geom::{Band, Pt};
use scene_parts::{Cut, NoMemory, Obstacle, Shape, sides};
use sight_cut::grid_of;
use std::alloc::{AllocError, Global};
use std::process::Abort;
use std::test::Fail;

/// Both coordinates and the height, in mm.
type Place = (i64, i64, u32);

/// The fraction before the specular point, the directions of both legs, and the squared plan length.
type Parts = [i128; 10];

/// An obstacle, a side of it, source and receiver, and the reflection.
type Row = (Wall, u32, Place, Place, Option<Parts>);

/// A wall 30 m north of source and receiver, who stand 100 m apart: its west end is 1 mm west of their middle.
const WALL: Wall = (
    Shape::Barrier,
    &[(49999, 30000), (149999, 30000)],
    10000,
    1000,
);

const SOURCE: Place = (0, 0, 2000);

const RECEIVER: Place = (100000, 0, 2000);

const HALFWAY: Parts = [
    3000000000,
    6000000000,
    1000000000000000,
    600000000000000,
    10000000000,
    -1000000000000000,
    600000000000000,
    10000000000,
    136000000000000000000,
    10000000000,
];

/// Buildings there, whose corners go round to the left and to the right.
const LEFT_ROUND: Wall = (
    Shape::Building,
    &[
        (20000, 30000),
        (80000, 30000),
        (80000, 50000),
        (20000, 50000),
    ],
    10000,
    800,
);

const RIGHT_ROUND: Wall = (
    Shape::Building,
    &[
        (20000, 50000),
        (80000, 50000),
        (80000, 30000),
        (20000, 30000),
    ],
    10000,
    800,
);

const FRONT: Parts = [
    1800000000,
    3600000000,
    360000000000000,
    216000000000000,
    3600000000,
    -360000000000000,
    216000000000000,
    3600000000,
    48960000000000000000,
    3600000000,
];

/// The longest side across a corner of the map, and two places at the opposite one.
const LONGEST: Wall = (
    Shape::Barrier,
    &[(3814638, 4000000), (4000000, 3814638)],
    100000,
    1000,
);

const WEST: Place = (-4000000, -3990000, 1);

const SOUTH: Place = (-3990000, -4000000, 100000);

const MIRRORS: &[Row] = &[
    // The specular point at an end of the side, and one millimetre inside of either.
    (
        (
            Shape::Barrier,
            &[(50000, 30000), (150000, 30000)],
            10000,
            1000,
        ),
        0,
        SOURCE,
        RECEIVER,
        None,
    ),
    (WALL, 0, SOURCE, RECEIVER, Some(HALFWAY)),
    (
        (
            Shape::Barrier,
            &[(-50000, 30000), (50000, 30000)],
            10000,
            1000,
        ),
        0,
        SOURCE,
        RECEIVER,
        None,
    ),
    (
        (
            Shape::Barrier,
            &[(-50000, 30000), (50001, 30000)],
            10000,
            1000,
        ),
        0,
        SOURCE,
        RECEIVER,
        Some([
            3000030000,
            6000060000,
            1000020000100000,
            600012000060000,
            10000200001,
            -1000020000100000,
            600012000060000,
            10000200001,
            136002720013600000000,
            10000200001,
        ]),
    ),
    // Nothing is reflected.
    (
        (Shape::Barrier, &[(49999, 30000), (149999, 30000)], 10000, 0),
        0,
        SOURCE,
        RECEIVER,
        None,
    ),
    // Both ends on the other side; on both sides; the source on the wall's line.
    (
        WALL,
        0,
        (0, 70000, 2000),
        (120000, 50000, 2000),
        Some([
            4000000000,
            6000000000,
            1200000000000000,
            -600000000000000,
            10000000000,
            -1200000000000000,
            -600000000000000,
            10000000000,
            180000000000000000000,
            10000000000,
        ]),
    ),
    (WALL, 0, (0, 0, 2000), (100000, 60000, 2000), None),
    (WALL, 0, (0, 30000, 2000), (100000, 0, 2000), None),
    // A building from outside and from inside, with its corners round to the left and to the right.
    (LEFT_ROUND, 0, SOURCE, RECEIVER, Some(FRONT)),
    (
        LEFT_ROUND,
        0,
        (40000, 35000, 2000),
        (60000, 40000, 2000),
        None,
    ),
    (RIGHT_ROUND, 2, SOURCE, RECEIVER, Some(FRONT)),
    (
        RIGHT_ROUND,
        2,
        (40000, 35000, 2000),
        (60000, 40000, 2000),
        None,
    ),
    // The path as high as the wall, and one millimetre higher.
    (
        (
            Shape::Barrier,
            &[(49999, 30000), (149999, 30000)],
            2500,
            201,
        ),
        0,
        (0, 0, 1000),
        (100000, 0, 4000),
        Some(HALFWAY),
    ),
    (
        (
            Shape::Barrier,
            &[(49999, 30000), (149999, 30000)],
            2499,
            201,
        ),
        0,
        (0, 0, 1000),
        (100000, 0, 4000),
        None,
    ),
    // The longest sides at the edges of the map, and source and receiver in one place.
    (
        LONGEST,
        0,
        WEST,
        SOUTH,
        Some([
            2929579308956,
            5859158617912,
            1086752541154284144,
            1085378178312524144,
            68718142088,
            1085378178312524144,
            1086752541154284144,
            68718142088,
            34329753453480875607239744,
            68718142088,
        ]),
    ),
    (
        (
            Shape::Barrier,
            &[(4000000, 4000000), (3737857, 4000000)],
            100000,
            1000,
        ),
        0,
        (3800000, -4000000, 100000),
        (3990000, -4000000, 1),
        Some([
            2097144000000,
            4194288000000,
            13056600965310000,
            1099503239184000000,
            68718952449,
            -13056600965310000,
            1099503239184000000,
            68718952449,
            17594532581127408900000000,
            68718952449,
        ]),
    ),
    (
        WALL,
        0,
        (60000, 0, 2000),
        (60000, 0, 9000),
        Some([
            3000000000,
            6000000000,
            0,
            600000000000000,
            10000000000,
            0,
            600000000000000,
            10000000000,
            36000000000000000000,
            10000000000,
        ]),
    ),
];

fn at((x, y, _h): Place) -> Pt {
    places::at((x, y))
}

/// The reflection in a side of an obstacle, if it has that side.
fn mirror_at(o: &Obstacle, i: u32, source: Place, receiver: Place) -> Option<Mirror> {
    if i < sides(o) {
        mirror(o, i, at(source), source.2, at(receiver), receiver.2)
    } else {
        None
    }
}

fn parts(m: &Mirror) -> Parts {
    let (first, second) = (m.first, m.second);
    [
        m.p.n, m.p.d, first.x, first.y, first.w, second.x, second.y, second.w, m.plan2.n, m.plan2.d,
    ]
}

/// Asserts the reflection in a side of the one obstacle.
fn is_mirrored(rt: &impl Abort, obstacles: &[Obstacle], row: &Row) {
    let (_, i, source, receiver, expected) = row;
    assert_eq!(rt; obstacles.len(), 1);
    let found = mirror_at(&obstacles[0], *i, *source, *receiver);
    assert!(rt; found.map(|m| parts(&m)) == *expected);
}

/// Asserts what a row tells of the reflection in its obstacle.
fn expect_mirror(rt: &impl Abort, alloc: Global, row: &Row) -> Result<(), AllocError> {
    let obstacles = obstacles(alloc, &[row.0])?;
    is_mirrored(rt, &obstacles, row);
    Ok(())
}

#[test]
fn walls_reflect(rt: HostRuntime) -> Result<(), Fail> {
    for row in MIRRORS {
        expect_mirror(&rt, rt.alloc(), row)?;
    }
    Ok(())
}

/// A leg, an obstacle and a side by their numbers, the place as a fraction, and whether it rises above the line of sight.
type Expected = (Leg, u32, u32, i128, i128, bool);

struct Case {
    obstacles: &'static [Wall],
    /// The obstacle whose first side reflects.
    wall: usize,
    source: Place,
    receiver: Place,
    band: Band,
    cuts: &'static [Expected],
}

/// A barrier of 0.2 m.
const POST: Wall = (Shape::Barrier, &[(24900, 15000), (25100, 14900)], 9000, 0);

const CASES: &[Case] = &[
    // A barrier across both legs, one across the first, and a building across the second; the last one is the wall.
    Case {
        obstacles: &[
            (Shape::Barrier, &[(10000, 11000), (90000, 13000)], 2000, 0),
            (Shape::Barrier, &[(20000, 0), (20000, 30000)], 4000, 0),
            (
                Shape::Building,
                &[(70000, 5000), (80000, 5000), (80000, 25000), (70000, 25000)],
                3000,
                0,
            ),
            WALL,
        ],
        wall: 3,
        source: SOURCE,
        receiver: RECEIVER,
        band: Band::Hz1000,
        cuts: &[
            (
                Leg::First,
                0,
                0,
                8600000000000000000,
                46000000000000000000,
                false,
            ),
            (
                Leg::First,
                1,
                0,
                6000000000000000000,
                30000000000000000000,
                true,
            ),
            (
                Leg::Second,
                0,
                0,
                39400000000000000000,
                50000000000000000000,
                false,
            ),
            (
                Leg::Second,
                2,
                1,
                16000000000000000000,
                20000000000000000000,
                true,
            ),
            (
                Leg::Second,
                2,
                3,
                14000000000000000000,
                20000000000000000000,
                true,
            ),
        ],
    },
    // At the specular point itself, behind the source, and on the wall's line.
    Case {
        obstacles: &[
            (Shape::Barrier, &[(50000, 20000), (50000, 40000)], 9000, 0),
            (
                Shape::Barrier,
                &[(-10000, -20000), (-10000, 20000)],
                9000,
                0,
            ),
            WALL,
            (Shape::Barrier, &[(100000, 30000), (200000, 30000)], 9000, 0),
        ],
        wall: 2,
        source: SOURCE,
        receiver: RECEIVER,
        band: Band::Hz8000,
        cuts: &[],
    },
    // A barrier of 0.2 m: too small at 63 Hz, large enough at 8 kHz.
    Case {
        obstacles: &[WALL, POST],
        wall: 0,
        source: SOURCE,
        receiver: RECEIVER,
        band: Band::Hz63,
        cuts: &[],
    },
    Case {
        obstacles: &[WALL, POST],
        wall: 0,
        source: SOURCE,
        receiver: RECEIVER,
        band: Band::Hz8000,
        cuts: &[(
            Leg::First,
            1,
            0,
            54900000000000000,
            220000000000000000,
            true,
        )],
    },
    // The path from 1 m to 4 m, at the height of the barrier and one millimetre higher.
    Case {
        obstacles: &[
            WALL,
            (Shape::Barrier, &[(25000, 0), (25000, 20000)], 1750, 0),
            (Shape::Barrier, &[(25000, 0), (25000, 20000)], 1751, 0),
            (Shape::Barrier, &[(75000, 0), (75000, 20000)], 3250, 0),
            (Shape::Barrier, &[(75000, 20000), (75000, 0)], 3251, 0),
        ],
        wall: 0,
        source: (0, 0, 1000),
        receiver: (100000, 0, 4000),
        band: Band::Hz500,
        cuts: &[
            (
                Leg::First,
                1,
                0,
                5000000000000000000,
                20000000000000000000,
                false,
            ),
            (
                Leg::First,
                2,
                0,
                5000000000000000000,
                20000000000000000000,
                true,
            ),
            (
                Leg::Second,
                3,
                0,
                15000000000000000000,
                20000000000000000000,
                false,
            ),
            (
                Leg::Second,
                4,
                0,
                15000000000000000000,
                20000000000000000000,
                true,
            ),
        ],
    },
    // At the edges of the map.
    Case {
        obstacles: &[
            LONGEST,
            (Shape::Barrier, &[(0, 50000), (50000, -20000)], 100000, 0),
        ],
        wall: 0,
        source: WEST,
        receiver: SOUTH,
        band: Band::Hz250,
        cuts: &[
            (
                Leg::First,
                1,
                0,
                33122144486416000000000,
                130341586796426097280000,
                true,
            ),
            (
                Leg::Second,
                1,
                0,
                97205698681592497280000,
                130314099539590897280000,
                true,
            ),
        ],
    },
    // Source and receiver in one place: nothing is large enough.
    Case {
        obstacles: &[
            WALL,
            (Shape::Barrier, &[(20000, 0), (20000, 30000)], 4000, 0),
            (Shape::Barrier, &[(50000, 10000), (70000, 10000)], 9000, 0),
        ],
        wall: 0,
        source: (60000, 0, 2000),
        receiver: (60000, 0, 9000),
        band: Band::Hz8000,
        cuts: &[],
    },
];

fn told(leg: Leg, cut: &Cut) -> Expected {
    (leg, cut.obstacle, cut.side, cut.t.n, cut.t.d, cut.above)
}

/// Asserts that these cuts are found.
fn are_found(rt: &impl Abort, found: &[(Leg, Cut)], expected: &[Expected]) {
    assert_eq!(rt; found.len(), expected.len());
    for ((leg, cut), expected) in found.iter().zip(expected) {
        assert_eq!(rt; told(*leg, cut), *expected);
    }
}

/// Asserts where the legs of a case are cut, as found among all sides.
fn is_cut_among_all(
    rt: &impl Abort,
    alloc: Global,
    case: &Case,
    obstacles: &[Obstacle],
    m: &Mirror,
) -> Result<(), NoMemory>
    requires few { length obstacles.now < 2 ^ 32 }
{
    let (s, r) = (at(case.source), at(case.receiver));
    let (hs, hr) = (case.source.2, case.receiver.2);
    let found = leg_cuts(alloc, obstacles, m, s, hs, r, hr, case.band)?;
    are_found(rt, &found, case.cuts);
    Ok(())
}

/// Asserts where the legs of a case are cut, as found by the index of sides.
fn is_cut_near(
    rt: &impl Abort,
    alloc: Global,
    case: &Case,
    obstacles: &[Obstacle],
    m: &Mirror,
) -> Result<(), NoMemory>
    requires few { length obstacles.now < 2 ^ 32 }
{
    let (s, r) = (at(case.source), at(case.receiver));
    let (hs, hr) = (case.source.2, case.receiver.2);
    let grid = grid_of(alloc, obstacles)?;
    let near = leg_cuts_near(alloc, &grid, obstacles, m, s, hs, r, hr, case.band)?;
    are_found(rt, &near, case.cuts);
    Ok(())
}

/// Asserts where these obstacles cut the legs of a case.
fn is_cut(
    rt: &impl Abort,
    alloc: Global,
    case: &Case,
    obstacles: &[Obstacle],
) -> Result<(), NoMemory> {
    assert!(rt; case.wall < obstacles.len() && obstacles.len() < 100);
    let Some(m) = mirror_at(&obstacles[case.wall], 0, case.source, case.receiver) else {
        return Err(NoMemory);
    };
    is_cut_among_all(rt, alloc, case, obstacles, &m)?;
    is_cut_near(rt, alloc, case, obstacles, &m)
}

/// Asserts where the obstacles of a case cut its legs.
fn expect_cuts(rt: &impl Abort, alloc: Global, case: &Case) -> Result<(), NoMemory> {
    let obstacles = obstacles(alloc, case.obstacles)?;
    is_cut(rt, alloc, case, &obstacles)
}

#[test]
fn legs_are_cut(rt: HostRuntime) -> Result<(), Fail> {
    for case in CASES {
        expect_cuts(&rt, rt.alloc(), case)?;
    }
    Ok(())
}

/// A wall, source and receiver, the ends of the path's length in units of 2^-32 m, a band, and whether the wall's first
/// side is large enough.
type Condition = (Wall, Place, Place, (i128, i128), Band, Truth);

/// The length by way of the wall from source to receiver.
const LENGTH: (i128, i128) = (500874953858, 500874953859);

const CONDITIONS: &[Condition] = &[
    // The wavelength is too great up to 500 Hz, and small enough from 1 kHz on.
    (WALL, SOURCE, RECEIVER, LENGTH, Band::Hz63, Truth::Never),
    (WALL, SOURCE, RECEIVER, LENGTH, Band::Hz500, Truth::Never),
    (WALL, SOURCE, RECEIVER, LENGTH, Band::Hz1000, Truth::Sure),
    (WALL, SOURCE, RECEIVER, LENGTH, Band::Hz8000, Truth::Sure),
    // Both sides of the condition are exactly equal.
    (
        (
            Shape::Barrier,
            &[(15790, 16128), (44690, 16128)],
            30000,
            500,
        ),
        (0, 0, 2000),
        (60480, 0, 2000),
        (294394238337, 294394238338),
        Band::Hz63,
        Truth::Unsure,
    ),
    // A length that isn't known well.
    (
        WALL,
        SOURCE,
        RECEIVER,
        (429496729600, 515396075520),
        Band::Hz500,
        Truth::Unsure,
    ),
    (
        WALL,
        SOURCE,
        RECEIVER,
        (386547056640, 429496729600),
        Band::Hz500,
        Truth::Sure,
    ),
    // A side shorter than it is high.
    (
        (
            Shape::Barrier,
            &[(48000, 30000), (52000, 30000)],
            10000,
            300,
        ),
        SOURCE,
        RECEIVER,
        LENGTH,
        Band::Hz2000,
        Truth::Never,
    ),
    (
        (
            Shape::Barrier,
            &[(48000, 30000), (52000, 30000)],
            10000,
            300,
        ),
        SOURCE,
        RECEIVER,
        LENGTH,
        Band::Hz8000,
        Truth::Sure,
    ),
];

/// Asserts whether the first side of the one obstacle is large enough.
fn is_tested(rt: &impl Abort, obstacles: &[Obstacle], row: &Condition) -> Result<(), AllocError> {
    let (_, source, receiver, (low, high), band, expected) = row;
    assert_eq!(rt; obstacles.len(), 1);
    let wall = &obstacles[0];
    let m = mirror_at(wall, 0, *source, *receiver).ok_or(AllocError)?;
    assert!(rt; 0 < sides(wall));
    let d = hull(ratio(*low, 1 << 32), ratio(*high, 1 << 32));
    assert_eq!(rt; big_enough(wall, 0, &m, d, *band), *expected);
    Ok(())
}

/// Asserts what a row tells of the condition on its obstacle.
fn expect_truth(rt: &impl Abort, alloc: Global, row: &Condition) -> Result<(), AllocError> {
    let obstacles = obstacles(alloc, &[row.0])?;
    is_tested(rt, &obstacles, row)
}

#[test]
fn surfaces_are_large_enough(rt: HostRuntime) -> Result<(), Fail> {
    for row in CONDITIONS {
        expect_truth(&rt, rt.alloc(), row)?;
    }
    Ok(())
}
