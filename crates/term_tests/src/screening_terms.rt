//! Values from outside, by an independent exact program.

ghost use Rattle.std.specs.Prelude.{All, IfSome, IfOk};
ghost use Rattle.path_shape.specs.Shape.{IsPath};
ghost use Rattle.term_barrier.specs.Edges.{FitsEdge};

use crate::shared::{End, direct, has_ends, place};
use fix_interval::{Iv, ratio, root};
use path_shape::Path;
use scene_geom::{Band, Pt, Side, crosses, dir_of};
use scene_parts::Edge;
use std::alloc::{AllocError, Global};
use std::process::Abort;
use std::test::Fail;
use term_barrier::{EdgeBuffers, Screens, a_bar, d_z_side, d_z_top};

/// A side that crosses the line of sight, its height in mm, and whether it rises above the line.
type Wall = ((i64, i64), (i64, i64), u32, bool);

struct Case {
    source: End,
    receiver: End,
    /// The square of their distance, in mm².
    square: i128,
    walls: &'static [Wall],
    /// The attenuation by the ground, in 0.01 dB.
    gr: i128,
    band: Band,
    /// The ends of D_z over the top and of A_bar.
    top: (i128, i128),
    screened: (i128, i128),
}

const CASES: &[Case] = &[
    // The top on the line of sight.
    Case {
        source: (0, 0, 2000),
        receiver: (100_000, 0, 2000),
        square: 10_000_000_000,
        walls: &[((50_000, -50_000), (50_000, 50_000), 2000, false)],
        gr: -300,
        band: Band::Hz1000,
        top: (0, 0),
        screened: (33_377_103_738, 33_377_103_748),
    },
    // One millimetre below it, and one above.
    Case {
        source: (0, 0, 2000),
        receiver: (100_000, 0, 2000),
        square: 10_000_000_000,
        walls: &[((50_000, -50_000), (50_000, 50_000), 1999, false)],
        gr: -300,
        band: Band::Hz1000,
        top: (0, 0),
        screened: (33_377_096_328, 33_377_096_678),
    },
    Case {
        source: (0, 0, 2000),
        receiver: (100_000, 0, 2000),
        square: 10_000_000_000,
        walls: &[((50_000, -50_000), (50_000, 50_000), 2001, true)],
        gr: -300,
        band: Band::Hz1000,
        top: (20_492_201_850, 20_492_201_860),
        screened: (33_377_103_738, 33_377_103_748),
    },
    // Two edges below, of which one grazes the line.
    Case {
        source: (0, 0, 2000),
        receiver: (100_000, 0, 4000),
        square: 10_004_000_000,
        walls: &[
            ((50_000, -50_000), (50_000, 50_000), 2900, false),
            ((30_000, -50_000), (30_000, 50_000), 1000, false),
        ],
        gr: -300,
        band: Band::Hz63,
        top: (0, 0),
        screened: (33_372_497_578, 33_372_497_618),
    },
    // Obliquely across a single edge, at 63 Hz and 8000 Hz.
    Case {
        source: (0, 0, 1000),
        receiver: (80_000, 60_000, 4000),
        square: 10_009_000_000,
        walls: &[((10_000, 60_000), (60_000, -10_000), 6000, true)],
        gr: -300,
        band: Band::Hz63,
        top: (24_621_902_480, 24_621_903_240),
        screened: (37_506_804_368, 37_506_805_128),
    },
    Case {
        source: (0, 0, 1000),
        receiver: (80_000, 60_000, 4000),
        square: 10_009_000_000,
        walls: &[((10_000, 60_000), (60_000, -10_000), 6000, true)],
        gr: 150,
        band: Band::Hz8000,
        top: (85_409_445_970, 85_409_449_610),
        screened: (78_966_995_026, 78_966_998_666),
    },
    // Two edges at one place, of which none can be said to be the nearer one.
    Case {
        source: (0, 0, 2000),
        receiver: (70_000, 0, 2000),
        square: 4_900_000_000,
        walls: &[
            ((30_000, 0), (20_000, 30_000), 5000, true),
            ((30_000, 0), (40_000, 20_000), 5000, true),
        ],
        gr: -300,
        band: Band::Hz500,
        top: (41_866_549_240, 41_867_273_800),
        screened: (54_751_451_128, 54_752_175_688),
    },
    // Two edges at 25 dB.
    Case {
        source: (0, 0, 1),
        receiver: (200_000, 0, 1),
        square: 40_000_000_000,
        walls: &[
            ((50_000, -50_000), (50_000, 50_000), 40_000, true),
            ((150_000, -50_000), (150_000, 50_000), 40_000, true),
        ],
        gr: 0,
        band: Band::Hz8000,
        top: (107_374_182_400, 107_374_182_400),
        screened: (107_374_182_400, 107_374_182_400),
    },
    // Two edges over both of which sound bends, the farther one listed first.
    Case {
        source: (0, 0, 2000),
        receiver: (100_000, 0, 2000),
        square: 10_000_000_000,
        walls: &[
            ((60_000, -50_000), (60_000, 50_000), 5000, true),
            ((40_000, -50_000), (40_000, 50_000), 6000, true),
        ],
        gr: -300,
        band: Band::Hz250,
        top: (47_322_232_330, 47_322_236_920),
        screened: (60_207_134_218, 60_207_138_808),
    },
    // Three, of which the one in the middle is low.
    Case {
        source: (0, 0, 2000),
        receiver: (100_000, 0, 2000),
        square: 10_000_000_000,
        walls: &[
            ((30_000, -50_000), (30_000, 50_000), 6000, true),
            ((50_000, -50_000), (50_000, 50_000), 3000, true),
            ((70_000, -50_000), (70_000, 50_000), 5500, true),
        ],
        gr: -300,
        band: Band::Hz1000,
        top: (80_295_787_280, 80_295_791_230),
        screened: (93_180_689_168, 93_180_693_118),
    },
    // Three tops on one line with the source.
    Case {
        source: (0, 0, 1000),
        receiver: (100_000, 0, 1000),
        square: 10_000_000_000,
        walls: &[
            ((20_000, -50_000), (20_000, 50_000), 3000, true),
            ((40_000, -50_000), (40_000, 50_000), 5000, true),
            ((60_000, -50_000), (60_000, 50_000), 7000, true),
        ],
        gr: 0,
        band: Band::Hz250,
        top: (46_307_747_900, 63_915_935_940),
        screened: (46_307_747_900, 63_915_935_940),
    },
    // A single edge at 20 dB, the ground above it.
    Case {
        source: (0, 0, 2000),
        receiver: (100_000, 0, 2000),
        square: 10_000_000_000,
        walls: &[((50_000, -50_000), (50_000, 50_000), 20_000, true)],
        gr: 2500,
        band: Band::Hz8000,
        top: (85_899_345_920, 85_899_345_920),
        screened: (0, 0),
    },
    // From corner to corner of the map.
    Case {
        source: (-4_000_000, -4_000_000, 1),
        receiver: (4_000_000, 4_000_000, 100_000),
        square: 128_009_999_800_001,
        walls: &[
            ((-80_000, 90_000), (80_000, -60_000), 100_000, true),
            (
                (-4_000_000, -3_800_000),
                (-3_900_000, -4_000_000),
                100_000,
                true,
            ),
        ],
        gr: -1600,
        band: Band::Hz8000,
        top: (57_851_680_340, 57_851_689_590),
        screened: (126_571_157_076, 126_571_166_326),
    },
];

struct Round {
    source: End,
    receiver: End,
    square: i128,
    corners: &'static [(i64, i64)],
    band: Band,
    side: (i128, i128),
}

const ROUND: &[Round] = &[
    // Round one corner.
    Round {
        source: (0, 0, 2000),
        receiver: (100_000, 0, 3000),
        square: 10_001_000_000,
        corners: &[(50_000, 20_000)],
        band: Band::Hz63,
        side: (64_379_276_240, 64_379_276_260),
    },
    Round {
        source: (0, 0, 2000),
        receiver: (100_000, 0, 3000),
        square: 10_001_000_000,
        corners: &[(50_000, 20_000)],
        band: Band::Hz8000,
        side: (85_899_345_920, 85_899_345_920),
    },
    // A corner close to the line.
    Round {
        source: (0, 0, 2000),
        receiver: (100_000, 0, 2000),
        square: 10_000_000_000,
        corners: &[(50_000, 1)],
        band: Band::Hz1000,
        side: (20_492_208_910, 20_492_209_270),
    },
    // Round three corners, at 25 dB and less.
    Round {
        source: (0, 0, 2000),
        receiver: (100_000, 0, 3000),
        square: 10_001_000_000,
        corners: &[(30_000, 10_000), (50_000, 15_000), (80_000, 9000)],
        band: Band::Hz8000,
        side: (107_374_182_400, 107_374_182_400),
    },
    Round {
        source: (0, 0, 2000),
        receiver: (100_000, 0, 3000),
        square: 10_001_000_000,
        corners: &[(30_000, 1000), (50_000, 1500), (80_000, 900)],
        band: Band::Hz125,
        side: (25_637_406_320, 25_637_406_460),
    },
    // Along the edges of the map.
    Round {
        source: (-4_000_000, -4_000_000, 1),
        receiver: (4_000_000, 4_000_000, 100_000),
        square: 128_009_999_800_001,
        corners: &[(-4_000_000, 4_000_000)],
        band: Band::Hz63,
        side: (85_899_345_920, 85_899_345_920),
    },
];

/// The length in metres whose square is so many mm².
fn metres(square: i128) -> Iv {
    root(ratio(square, 1_000_000))
}

fn edge(wall: &Wall, s: Pt, r: Pt) -> Option<Edge>
    ensures { IfSome result FitsEdge }
{
    let side = Side {
        from: place(wall.0),
        to: place(wall.1),
    };
    let t = crosses(side, s, r)?;
    Some(Edge {
        t,
        side,
        dir: dir_of(s, r),
        h: wall.2,
        above: wall.3,
    })
}

fn edges(alloc: Global, walls: &[Wall], s: Pt, r: Pt) -> Result<Vec<Edge>, AllocError>
    ensures { IfOk result (λ edges. All FitsEdge edges.items) }
{
    let mut edges = Vec::new(alloc);
    for wall in walls {
        if let Some(edge) = edge(wall, s, r) {
            edges.push(edge)?;
        }
    }
    Ok(edges)
}

/// The edges of a case.
fn edges_of(alloc: Global, case: &Case) -> Result<Vec<Edge>, AllocError>
    ensures { IfOk result (λ edges. All FitsEdge edges.items) }
{
    let (sx, sy, _) = case.source;
    let (rx, ry, _) = case.receiver;
    edges(alloc, case.walls, place((sx, sy)), place((rx, ry)))
}

/// The screening of a case's path by these edges is that of the case.
fn has_screening(rt: &impl Abort, case: &Case, path: &Path, edges: &[Edge])
    requires path { IsPath path.now }
    requires edges { All FitsEdge edges.now }
{
    assert!(rt; edges.len() == case.walls.len());
    let d = metres(case.square);
    let top = d_z_top(path, edges, d, case.band);
    has_ends(rt, top, case.top);
    let screened = a_bar(path, edges, d, ratio(case.gr, 100), case.band);
    has_ends(rt, screened, case.screened);
}

/// The screening of a case's path by its walls is that of the case.
fn expect_screening(rt: &impl Abort, alloc: Global, case: &Case) -> Result<(), AllocError> {
    let path = direct(case.source, case.receiver);
    let edges = edges_of(alloc, case)?;
    has_screening(rt, case, &path, &edges);
    Ok(())
}

fn all_screened(rt: &impl Abort, alloc: Global, cases: &[Case]) -> Result<(), AllocError> {
    for case in cases {
        expect_screening(rt, alloc, case)?;
    }
    Ok(())
}

#[test]
fn screens_attenuate(rt: HostRuntime) -> Result<(), Fail> {
    Ok(all_screened(&rt, rt.alloc(), CASES)?)
}

fn points(alloc: Global, places: &[(i64, i64)]) -> Result<Vec<Pt>, AllocError> {
    let mut points = Vec::new(alloc);
    for at in places {
        points.push(place(*at))?;
    }
    Ok(points)
}

/// The screening of a case's way round its corners is that of the case.
fn has_side(rt: &impl Abort, case: &Round, corners: &[Pt]) {
    let (sx, sy, hs) = case.source;
    let (rx, ry, hr) = case.receiver;
    let (s, r) = (place((sx, sy)), place((rx, ry)));
    assert!(rt; !corners.is_empty());
    let d = metres(case.square);
    has_ends(rt, d_z_side(s, hs, r, hr, corners, d, case.band), case.side);
}

fn have_sides(rt: &impl Abort, alloc: Global, cases: &[Round]) -> Result<(), AllocError> {
    for case in cases {
        has_side(rt, case, &points(alloc, case.corners)?);
    }
    Ok(())
}

#[test]
fn corners_attenuate(rt: HostRuntime) -> Result<(), Fail> {
    Ok(have_sides(&rt, rt.alloc(), ROUND)?)
}

/// What is screened of a case's path where all these edges count, and where none does.
fn has_marked(
    rt: &impl Abort,
    buffers: &mut EdgeBuffers,
    case: &Case,
    path: &Path,
    edges: &[Edge],
) -> Result<(), AllocError>
    requires { All FitsEdge edges.now }
{
    match Screens::of(buffers, path, edges, metres(case.square)) {
        Ok(screens) => {
            leaves_out(rt, case, &screens);
            Ok(())
        }
        Err(_) => Err(AllocError),
    }
}

/// What is screened of a case's path where all its edges count, and where none does.
fn expect_marked(
    rt: &impl Abort,
    alloc: Global,
    buffers: &mut EdgeBuffers,
    case: &Case,
) -> Result<(), AllocError> {
    let path = direct(case.source, case.receiver);
    let edges = edges_of(alloc, case)?;
    has_marked(rt, buffers, case, &path, &edges)
}

/// Asserts that of a case's path all is screened by all edges, and nothing by none.
fn leaves_out(rt: &impl Abort, case: &Case, screens: &Screens) {
    let gr = ratio(case.gr, 100);
    let all = screens.a_bar(&[true; 3], gr, case.band);
    has_ends(rt, all, case.screened);
    let none = screens.a_bar(&[false; 3], gr, case.band);
    has_ends(rt, none, (0, 0));
}

/// The same of some cases, with buffers that are lent to one path after another.
fn all_marked(rt: &impl Abort, alloc: Global, cases: &[Case]) -> Result<(), AllocError> {
    let mut buffers = EdgeBuffers::new(alloc);
    for case in cases {
        expect_marked(rt, alloc, &mut buffers, case)?;
    }
    Ok(())
}

#[test]
fn marks_leave_edges_out(rt: HostRuntime) -> Result<(), Fail> {
    Ok(all_marked(&rt, rt.alloc(), CASES)?)
}

/// The edge with its side shrunk to a point: then nothing bounds what stands under its logarithm.
fn at_a_point(edge: Edge) -> Edge
    requires { FitsEdge edge }
    ensures { FitsEdge result }
{
    let from = edge.side.from;
    Edge {
        side: Side { from, to: from },
        ..edge
    }
}

/// Marks, and the ends of A_bar at 1000 Hz of two edges, the second of which is without bounds.
const BESIDE: [([bool; 2], (i128, i128)); 3] = [
    ([true, true], (43_640_964_770, 107_374_182_400)),
    ([true, false], (43_640_964_770, 43_640_968_800)),
    ([false, true], (0, 85_899_345_920)),
];

/// Asserts what is screened where the marks let two edges count.
fn has_beside(rt: &impl Abort, screens: &Screens) {
    for (marks, expected) in &BESIDE {
        has_ends(
            rt,
            screens.a_bar(marks, ratio(0, 1), Band::Hz1000),
            *expected,
        );
    }
}

/// What is screened by an edge, and by one before it that is without bounds.
fn expect_beside(rt: &impl Abort, alloc: Global, edges: &[Edge]) -> Result<(), AllocError>
    requires { All FitsEdge edges.now }
{
    let path = direct((0, 0, 2000), (100_000, 0, 2000));
    let mut buffers = EdgeBuffers::new(alloc);
    match Screens::of(&mut buffers, &path, edges, metres(10_000_000_000)) {
        Ok(screens) => {
            has_beside(rt, &screens);
            Ok(())
        }
        Err(_) => Err(AllocError),
    }
}

#[test]
fn an_edge_without_bounds_leaves_the_others_theirs(rt: HostRuntime) -> Result<(), Fail> {
    let (s, r) = (place((0, 0)), place((100_000, 0)));
    let behind = edge(&((60_000, -50_000), (60_000, 50_000), 5000, true), s, r);
    let before = edge(&((40_000, -50_000), (40_000, 50_000), 6000, true), s, r);
    match (behind, before) {
        (Some(behind), Some(before)) => {
            Ok(expect_beside(&rt, rt.alloc(), &[behind, at_a_point(before)])?)
        }
        _ => Err(AllocError.into()),
    }
}
