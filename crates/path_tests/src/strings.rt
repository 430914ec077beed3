//! Chains, by an independent exact program.
use crate::places::{END, at};
use edge_chain::{Hand, chain, is_blocked};
use scene_geom::{Pt, Side};
use std::alloc::{AllocError, Global};
use std::process::Abort;
use std::test::Fail;

/// The coordinates of a point, in mm.
type Spot = (i64, i64);

struct Case {
    points: &'static [Spot],
    source: Spot,
    receiver: Spot,
    hand: Hand,
    chain: &'static [Spot],
}

const CASES: &[Case] = &[
    // Three points of an arch and one below it, on either hand, and the other way.
    Case {
        points: &[(2, 3), (5, 5), (8, 3), (5, 2)],
        source: (0, 0),
        receiver: (10, 0),
        hand: Hand::Left,
        chain: &[(2, 3), (5, 5), (8, 3)],
    },
    Case {
        points: &[(2, 3), (5, 5), (8, 3), (5, 2)],
        source: (0, 0),
        receiver: (10, 0),
        hand: Hand::Right,
        chain: &[],
    },
    Case {
        points: &[(2, 3), (5, 5), (8, 3), (5, 2)],
        source: (10, 0),
        receiver: (0, 0),
        hand: Hand::Right,
        chain: &[(8, 3), (5, 5), (2, 3)],
    },
    // One point; none but on the line and on the other hand.
    Case {
        points: &[(5, 4)],
        source: (0, 0),
        receiver: (10, 0),
        hand: Hand::Left,
        chain: &[(5, 4)],
    },
    Case {
        points: &[(5, -1), (5, 0), (-4, 0), (14, 0)],
        source: (0, 0),
        receiver: (10, 0),
        hand: Hand::Left,
        chain: &[],
    },
    // Points on the line, and several on one segment.
    Case {
        points: &[
            (3, 0),
            (-4, 0),
            (14, 0),
            (2, 2),
            (4, 4),
            (6, 4),
            (8, 4),
            (1, 1),
        ],
        source: (0, 0),
        receiver: (10, 0),
        hand: Hand::Left,
        chain: &[(4, 4), (8, 4)],
    },
    // Points that are there several times.
    Case {
        points: &[(2, 3), (2, 3), (8, 3), (2, 3), (8, 3)],
        source: (0, 0),
        receiver: (10, 0),
        hand: Hand::Left,
        chain: &[(2, 3), (8, 3)],
    },
    // Behind the source and beyond the receiver, on both hands.
    Case {
        points: &[(-3, 2), (13, 4), (5, 3), (-3, -2), (13, -4)],
        source: (0, 0),
        receiver: (10, 0),
        hand: Hand::Left,
        chain: &[(-3, 2), (13, 4)],
    },
    Case {
        points: &[(-3, 2), (13, 4), (5, 3), (-3, -2), (13, -4)],
        source: (0, 0),
        receiver: (10, 0),
        hand: Hand::Right,
        chain: &[(-3, -2), (13, -4)],
    },
    // Several points on one ray from the source, and from the receiver.
    Case {
        points: &[(1, 2), (2, 4), (3, 6), (2, 1), (4, 2)],
        source: (0, 0),
        receiver: (10, 0),
        hand: Hand::Left,
        chain: &[(3, 6)],
    },
    Case {
        points: &[(9, 2), (8, 4), (7, 6), (8, 1), (6, 2)],
        source: (0, 0),
        receiver: (10, 0),
        hand: Hand::Left,
        chain: &[(7, 6)],
    },
    // An oblique line.
    Case {
        points: &[
            (40, 10),
            (35, 30),
            (10, 45),
            (20, 20),
            (60, 70),
            (70, 60),
            (90, 20),
        ],
        source: (5, 3),
        receiver: (80, 77),
        hand: Hand::Left,
        chain: &[(10, 45), (60, 70)],
    },
    // The corners of the map.
    Case {
        points: &[
            (-END, END),
            (END, END),
            (0, END),
            (END, -END),
            (-END, -END),
            (0, 0),
        ],
        source: (-END, 0),
        receiver: (END, 0),
        hand: Hand::Left,
        chain: &[(-END, END), (END, END)],
    },
    Case {
        points: &[
            (-END, END),
            (END, -END),
            (END, END - 1),
            (-END, -END + 1),
            (0, 0),
        ],
        source: (-END, -END),
        receiver: (END, END),
        hand: Hand::Right,
        chain: &[(END, -END)],
    },
    // Source and receiver in one place.
    Case {
        points: &[(1, 1), (2, 0)],
        source: (0, 0),
        receiver: (0, 0),
        hand: Hand::Left,
        chain: &[],
    },
];

fn spot(point: Pt) -> Spot {
    (point.x.into(), point.y.into())
}

fn corners(alloc: Global, spots: &[Spot]) -> Result<Vec<Pt>, AllocError> {
    let mut points = Vec::new(alloc);
    for spot in spots {
        points.push(at(*spot))?;
    }
    Ok(points)
}

/// Asserts that these points are at these spots.
fn are_at(rt: &impl Abort, points: &[Pt], spots: &[Spot]) {
    assert_eq!(rt; points.len(), spots.len());
    for (point, expected) in points.iter().zip(spots) {
        assert_eq!(rt; spot(*point), *expected);
    }
}

/// Asserts the string round these points.
fn is_stretched(
    rt: &impl Abort,
    alloc: Global,
    case: &Case,
    points: &[Pt],
) -> Result<(), AllocError> {
    let Ok(found) = chain(alloc, points, at(case.source), at(case.receiver), case.hand) else {
        return Err(AllocError);
    };
    are_at(rt, &found, case.chain);
    Ok(())
}

/// Asserts the string round the points of a case.
fn expect_string(rt: &impl Abort, alloc: Global, case: &Case) -> Result<(), AllocError> {
    let points = corners(alloc, case.points)?;
    is_stretched(rt, alloc, case, &points)
}

#[test]
fn strings_are_stretched(rt: HostRuntime) -> Result<(), Fail> {
    for case in CASES {
        expect_string(&rt, rt.alloc(), case)?;
    }
    Ok(())
}

/// A point of an arch of which each point stands out.
fn on_arch(i: u32) -> Spot {
    let x = i % 1025;
    (x.into(), (x * (1025 - x)).into())
}

/// The points of the arch, in no order of the plan.
fn arch(alloc: Global) -> Result<Vec<Pt>, AllocError> {
    let mut points = Vec::new(alloc);
    for i in 1..1025u32 {
        points.push(at(on_arch(i * 389)))?;
    }
    Ok(points)
}

/// Asserts that these are all points of the arch, in their order on it.
fn are_on_arch(rt: &impl Abort, points: &[Pt]) {
    assert_eq!(rt; points.len(), 1024);
    for (point, i) in points.iter().zip(1..1025u32) {
        assert_eq!(rt; spot(*point), on_arch(i));
    }
}

/// Asserts that the string round the arch goes by all its points.
fn expect_arch(rt: &impl Abort, alloc: Global, points: &[Pt]) -> Result<(), AllocError> {
    let Ok(found) = chain(alloc, points, at((0, 0)), at((1025, 0)), Hand::Left) else {
        return Err(AllocError);
    };
    are_on_arch(rt, &found);
    Ok(())
}

#[test]
fn all_points_of_an_arch_stay(rt: HostRuntime) -> Result<(), Fail> {
    let points = arch(rt.alloc())?;
    Ok(expect_arch(&rt, rt.alloc(), &points)?)
}

#[test]
fn sides_block_segments(rt: HostRuntime) {
    let string = [at((2, 4)), at((8, 4))];
    // A side, and whether it blocks the string from (0, 0) by these points to (10, 0).
    let rows = [
        (((0, 3), (3, 0)), true),
        (((5, 3), (5, 5)), true),
        (((8, 1), (12, 3)), true),
        // Within the string and outside of it.
        (((4, 1), (6, 3)), false),
        (((-5, 9), (15, 9)), false),
        // A corner on a segment, a side along one, and one through a point of the string alone.
        (((5, 4), (5, 9)), false),
        (((3, 4), (7, 4)), false),
        (((0, 5), (4, 3)), false),
    ];
    for ((from, to), blocked) in rows {
        let side = Side {
            from: at(from),
            to: at(to),
        };
        assert_eq!(rt; is_blocked(&string, at((0, 0)), at((10, 0)), side), blocked);
    }
}
