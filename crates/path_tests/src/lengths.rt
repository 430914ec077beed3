//! Values from outside, by an independent exact program.

use crate::places::at;
use path_shape::Path;
use scene_geom::{Pt, Side, is_short, on_one_side};
use std::process::Abort;

/// The places of a source and a receiver in mm, and the ends of the plan length in units of 2^-32 m.
const LENGTHS: [((i64, i64), (i64, i64), (i128, i128)); 5] = [
    ((0, 0), (100000, 0), (429496729600, 429496729600)),
    ((5, -7), (5, -7), (0, 0)),
    ((0, 0), (1, 0), (4294483, 4294984)),
    (
        (-30000, -20000),
        (230000, 40000),
        (1146040216592, 1146040216593),
    ),
    (
        (-4000000, -4000000),
        (4000000, 4000000),
        (48592007999616, 48592007999617),
    ),
];

/// Asserts the ends of the plan length of a path, and its heights.
fn has_length(rt: &impl Abort, path: &Path, (lo, hi): (i128, i128)) {
    assert_eq!(rt; (path.dp.low(), path.dp.high()), (Some(lo), Some(hi)));
    assert_eq!(rt; (path.hs, path.hr), (1, 100_000));
}

#[test]
fn paths_have_these_lengths(rt: HostRuntime) {
    for (source, receiver, length) in LENGTHS {
        let path = Path::direct(at(source), 1, at(receiver), 100_000);
        has_length(&rt, &path, length);
    }
}

/// The path by way of a side, where it can reflect.
fn reflected(side: Side, source: Pt, receiver: Pt) -> Option<Path> {
    if !is_short(side) {
        None
    } else if on_one_side(side, source, receiver) {
        Some(Path::reflected(side, source, 1, receiver, 100_000))
    } else {
        None
    }
}

/// The ends of a wall's side, of a source and of a receiver, and the ends of the plan length by way of
/// it in units of 2^-32 m.
const REFLECTED: [([(i64, i64); 4], (i128, i128)); 3] = [
    // By way of the point (50000, 30000): the square root of 100² + 60² m.
    (
        [(49_999, 30_000), (149_999, 30_000), (0, 0), (100_000, 0)],
        (500_874_953_858, 500_874_953_859),
    ),
    (
        [
            (60_000, -20_000),
            (-10_000, 45_000),
            (-30_000, -1_000),
            (5_000, -7),
        ],
        (319_576_633_751, 319_576_633_752),
    ),
    ([(0, 0), (1, 0), (3, 1), (-2, 1)], (23_129_101, 23_129_195)),
];

#[test]
fn paths_by_way_of_walls_have_these_lengths(rt: HostRuntime) {
    for ([from, to, source, receiver], length) in REFLECTED {
        let side = Side {
            from: at(from),
            to: at(to),
        };
        match reflected(side, at(source), at(receiver)) {
            None => assert!(rt; false, "{side:?}"),
            Some(path) => has_length(&rt, &path, length),
        }
    }
}
