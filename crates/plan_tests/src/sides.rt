//! Values from outside, calculated by an independent program over fractions without rounding.
ghost use Rattle.scene_geom.specs.Direction.{FitsDirection};

use scene_geom::{
    Dir, Frac, Pt, Reflection, Side, area2, blocks, crosses, dir_of, extent, hits, is_short,
    lies_inside, meets, on_one_side, orient, passes, unfold,
};
use std::alloc::{AllocError, Global};
use std::process::Abort;
use std::test::Fail;

/// The greatest coordinate.
const M: i64 = 4_000_000;

fn at((x, y): (i64, i64)) -> Pt {
    Pt::new(x.clamp(-M, M), y.clamp(-M, M))
}

fn side((from, to): ((i64, i64), (i64, i64))) -> Side {
    Side {
        from: at(from),
        to: at(to),
    }
}

fn corners(alloc: Global, places: &[(i64, i64)]) -> Result<Vec<Pt>, AllocError> {
    let mut points = Vec::new(alloc);
    for place in places {
        points.push(at(*place))?;
    }
    Ok(points)
}

fn parts(place: Frac) -> (i128, i128) {
    (place.n, place.d)
}

/// Two places.
type Pair = ((i64, i64), (i64, i64));

/// A fraction by its two numbers.
type Parts = (i128, i128);

const AHEAD: Pair = ((0, 0), (1000, 0));

const ACROSS: Pair = ((-M, -M), (M, M));

const ASKEW: Pair = ((-M, -M + 1), (M, M - 1));

/// The side, the way, the crossing, whether the side blocks, and the hit with the whole line.
const SIDES: [(Pair, Pair, Option<Parts>, bool, Option<Parts>); 14] = [
    (
        ((500, -100), (500, 300)),
        AHEAD,
        Some((200_000, 400_000)),
        true,
        Some((200_000, 400_000)),
    ),
    (
        ((500, 300), (500, -100)),
        AHEAD,
        Some((200_000, 400_000)),
        true,
        Some((200_000, 400_000)),
    ),
    // A corner on the line: with the side on the left it crosses, on the right it doesn't.
    (
        ((500, 0), (500, 300)),
        AHEAD,
        Some((150_000, 300_000)),
        false,
        Some((150_000, 300_000)),
    ),
    (((500, 0), (500, -300)), AHEAD, None, false, None),
    // At the start, at the end, behind and beyond.
    (
        ((0, -300), (0, 300)),
        AHEAD,
        None,
        false,
        Some((0, 600_000)),
    ),
    (
        ((1000, -300), (1000, 300)),
        AHEAD,
        None,
        false,
        Some((600_000, 600_000)),
    ),
    (
        ((-1, -300), (-1, 300)),
        AHEAD,
        None,
        false,
        Some((-600, 600_000)),
    ),
    (
        ((1001, -300), (1001, 300)),
        AHEAD,
        None,
        false,
        Some((600_600, 600_000)),
    ),
    // Along the line, beside it, and a way of no length.
    (((100, 0), (900, 0)), AHEAD, None, false, None),
    (((100, 5), (900, 5)), AHEAD, None, false, None),
    (((-5, -5), (5, 5)), ((0, 0), (0, 0)), None, false, None),
    // A fraction that isn't reduced, and the greatest coordinates.
    (
        ((3, -7), (11, 13)),
        ((-20, -2), (30, 9)),
        Some((500, 912)),
        true,
        Some((500, 912)),
    ),
    (
        ((-M, M), (M, -M)),
        ACROSS,
        Some((64_000_000_000_000, 128_000_000_000_000)),
        true,
        Some((64_000_000_000_000, 128_000_000_000_000)),
    ),
    (
        ((M, -M), (-M, M)),
        ASKEW,
        Some((63_999_992_000_000, 127_999_984_000_000)),
        true,
        Some((63_999_992_000_000, 127_999_984_000_000)),
    ),
];

/// Asserts where a side crosses a way, whether it blocks it, and where the whole line hits it.
fn is_crossed(
    rt: &impl Abort,
    wall: Side,
    line: Side,
    crossing: Option<Parts>,
    blocked: bool,
    hit: Option<Parts>,
) {
    let found = crosses(wall, line.from, line.to).map(parts);
    assert!(rt;
        found == crossing && blocks(wall, line.from, line.to) == blocked,
        "{wall:?}"
    );
    is_hit(rt, wall, line.from, dir_of(line.from, line.to), hit);
}

/// Asserts where a leg from a point hits a wall.
fn is_hit(rt: &impl Abort, wall: Side, from: Pt, dir: Dir, hit: Option<Parts>)
    requires { FitsDirection dir }
{
    assert!(rt; hits(wall, from, dir).map(parts) == hit, "{wall:?}");
}

#[test]
fn sides_cross_and_block(rt: HostRuntime) {
    for (wall, way, crossing, blocked, hit) in &SIDES {
        is_crossed(&rt, side(*wall), side(*way), *crossing, *blocked, *hit);
    }
    let twice = orient(at((-M, M)), at((M, M)), at((M, -M)));
    assert!(rt; twice == -64_000_000_000_000);
}

/// The corners of an outline, in mm.
type Corners = &'static [(i64, i64)];

const SQUARE: Corners = &[(100, -50), (300, -50), (300, 50), (100, 50)];

const TURNED: Corners = &[(100, 50), (300, 50), (300, -50), (100, -50)];

const BELOW: Corners = &[(100, 0), (300, 0), (300, -50), (100, -50)];

const ABOVE: Corners = &[(100, 0), (300, 0), (300, 50), (100, 50)];

const BOW: Corners = &[(100, -50), (300, 50), (300, -50), (100, 50)];

const REPEATED: Corners = &[(100, -50), (300, -50), (300, 50), (100, 50), (100, -50)];

const THERE_AND_BACK: Corners = &[
    (100, -50),
    (300, -50),
    (300, 50),
    (100, 50),
    (100, -50),
    (100, 50),
    (300, 50),
    (300, -50),
];

const ALL: Corners = &[(-M, -M), (M, -M), (M, M), (-M, M)];

/// The outline, the way, twice the area, the extent, and whether the outline meets the way.
type Outline = (Corners, Pair, i128, i128, bool);

const OUTLINES: &[Outline] = &[
    (SQUARE, ((0, 0), (1000, 0)), 40_000, 100_000, true),
    (TURNED, ((0, 0), (1000, 0)), -40_000, 100_000, true),
    (SQUARE, ((400, 0), (1000, 0)), 40_000, 60_000, false),
    (SQUARE, ((0, 0), (50, 0)), 40_000, 5_000, false),
    (SQUARE, ((0, 0), (200, 0)), 40_000, 20_000, true),
    (SQUARE, ((200, 0), (1000, 0)), 40_000, 80_000, true),
    (SQUARE, ((200, 0), (250, 0)), 40_000, 5_000, true),
    (TURNED, ((200, 0), (250, 0)), -40_000, 5_000, true),
    (SQUARE, ((200, 0), (200, 0)), 40_000, 0, false),
    // A side on the line, seen from both hands.
    (BELOW, ((0, 0), (1000, 0)), -20_000, 50_000, false),
    (ABOVE, ((0, 0), (1000, 0)), 20_000, 50_000, true),
    // Outlines that cross themselves, repeat their first corner, or wind there and back.
    (BOW, ((0, 0), (1000, 0)), 0, 100_000, true),
    (BOW, ((150, 0), (180, 0)), 0, 3_000, true),
    (REPEATED, ((200, 0), (250, 0)), 40_000, 5_000, true),
    (THERE_AND_BACK, ((200, 0), (250, 0)), 0, 5_000, false),
    (
        ALL,
        ((-M, -M), (M, M)),
        128_000_000_000_000,
        128_000_000_000_000,
        true,
    ),
    (ALL, ((0, 0), (1, 0)), 128_000_000_000_000, 8_000_000, true),
    (&[], ((0, 0), (1, 0)), 0, 0, false),
    (&[(5, 5)], ((0, 0), (10, 0)), 0, 0, false),
];

/// Asserts twice the area of an outline, its extent along a way, and whether it meets it.
fn is_met(rt: &impl Abort, outline: &[Pt], line: Side, area: i128, across: i128, met: bool) {
    let sizes = area2(outline) == area && extent(outline, line.from, line.to) == across;
    let ahead = dir_of(line.from, line.to);
    assert!(rt;
        sizes && meets(outline, line.from, ahead, Frac { n: 1, d: 1 }) == met,
        "{line:?}"
    );
}

/// Asserts what a row tells of its outline.
fn expect_outline(rt: &impl Abort, alloc: Global, row: &Outline) -> Result<(), AllocError> {
    let (places, way, area, across, met) = *row;
    let outline = corners(alloc, places)?;
    is_met(rt, &outline, side(way), area, across, met);
    Ok(())
}

#[test]
fn outlines_have_areas_extents_and_meet(rt: HostRuntime) -> Result<(), Fail> {
    for row in OUTLINES {
        expect_outline(&rt, rt.alloc(), row)?;
    }
    Ok(())
}

/// The legs of a reflection from (0, 0) to (100000, 0) in a wall at y = 60000, and where on each it is.
const END: Frac = Frac {
    n: 9_600_000_000,
    d: 19_200_000_000,
};

const FIRST: Dir = Dir {
    x: 2_560_000_000_000_000,
    y: 3_072_000_000_000_000,
    w: 25_600_000_000,
};

const SECOND: Dir = Dir {
    x: -2_560_000_000_000_000,
    y: 3_072_000_000_000_000,
    w: 25_600_000_000,
};

/// Where the first leg hits the wall, a fifth of the way.
const HIT: Frac = Frac {
    n: 10_240_000_000_000_000_000,
    d: 51_200_000_000_000_000_000,
};

const FIFTH: Frac = Frac { n: 1, d: 5 };

/// Whether a leg passes a wall to its right.
fn passes_right(wall: Side, from: Pt, dir: Dir) -> bool
    requires { FitsDirection dir }
{
    match passes(wall, from, dir) {
        Some(passage) => !passage.to_left,
        None => false,
    }
}

#[test]
fn legs_are_hit(rt: HostRuntime) {
    let source = at((0, 0));
    let wall = side(((20_000, 30_000), (20_000, 10_000)));
    is_hit(&rt, wall, source, FIRST, Some(parts(HIT)));
    is_hit(&rt, wall, at((100_000, 0)), SECOND, None);
    assert!(rt; passes_right(wall, source, FIRST));
    assert!(rt; lies_inside(HIT, END) && !lies_inside(HIT, FIFTH));
}

const HOUSE: Corners = &[
    (20_000, 20_000),
    (40_000, 20_000),
    (40_000, 40_000),
    (20_000, 40_000),
];

/// Whether a house is met by the first leg, and not by the second.
fn is_met_first(house: &[Pt]) -> bool {
    meets(house, at((0, 0)), FIRST, END) && !meets(house, at((100_000, 0)), SECOND, END)
}

#[test]
fn a_house_is_met_by_the_first_leg(rt: HostRuntime) -> Result<(), Fail> {
    let house = corners(rt.alloc(), HOUSE)?;
    assert!(rt; is_met_first(&house));
    Ok(())
}

const GREATEST: Dir = Dir {
    x: 2_110_000_000_000_000_000,
    y: -2_110_000_000_000_000_000,
    w: 68_718_952_449,
};

const FAR: Frac = Frac {
    n: 4_398_012_956_736_000_000_000_000,
    d: 33_760_000_000_000_000_000_000_000,
};

const HALF: Frac = Frac {
    n: 2_970_000_000_000,
    d: 5_940_000_000_000,
};

#[test]
fn the_greatest_leg_is_hit(rt: HostRuntime) {
    let diagonal = side(ACROSS);
    is_hit(&rt, diagonal, at((-M, M)), GREATEST, Some(parts(FAR)));
    let behind = Some((-FAR.n, FAR.d));
    is_hit(&rt, diagonal, at((M, -M)), GREATEST, behind);
    assert!(rt; lies_inside(FAR, HALF));
}

/// The path by way of a side, where it can reflect.
fn reflection(side: Side, s: Pt, r: Pt) -> Option<Reflection> {
    if !is_short(side) {
        None
    } else if on_one_side(side, s, r) {
        Some(unfold(side, s, r))
    } else {
        None
    }
}

/// The side, source and receiver, the two directions with their divisor, the fraction before the specular point, and the
/// numerator of the squared length.
type Reflected = (
    ((i64, i64), (i64, i64)),
    ((i64, i64), (i64, i64)),
    (i128, i128),
    (i128, i128),
    i128,
    (i128, i128),
    i128,
);

const REFLECTED: [Reflected; 3] = [
    // The specular point is (50000, 30000), and the path the square root of 100² + 60² m long.
    (
        ((49_999, 30_000), (149_999, 30_000)),
        ((0, 0), (100_000, 0)),
        (1_000_000_000_000_000, 600_000_000_000_000),
        (-1_000_000_000_000_000, 600_000_000_000_000),
        10_000_000_000,
        (3_000_000_000, 6_000_000_000),
        136_000_000_000_000_000_000,
    ),
    (
        ((60_000, -20_000), (-10_000, 45_000)),
        ((-30_000, -1_000), (5_000, -7)),
        (602_188_700_000_000, 313_629_725_000_000),
        (268_225_000_000_000, 623_738_875_000_000),
        9_125_000_000,
        (4_520_000_000, 6_695_490_000),
        50_519_981_897_125_000_000,
    ),
    // The longest wall.
    (
        ((0, 0), (0, 262_143)),
        ((1, 131_071), (2, 131_072)),
        (-206_156_857_347, 68_718_952_449),
        (-206_156_857_347, -68_718_952_449),
        68_718_952_449,
        (262_143, 786_429),
        687_189_524_490,
    ),
];

fn is_dir(dir: Dir, (x, y): (i128, i128), w: i128) -> bool {
    dir.x == x && dir.y == y && dir.w == w
}

/// Whether a reflection is the one that a row tells.
fn is_reflection(path: &Reflection, row: &Reflected) -> bool {
    let (_, _, first, second, w, p, squared) = *row;
    is_dir(path.first, first, w)
        && is_dir(path.second, second, w)
        && parts(path.p) == p
        && parts(path.square) == (squared, w)
}

#[test]
fn walls_reflect(rt: HostRuntime) {
    for row in &REFLECTED {
        let (wall, ends) = (row.0, side(row.1));
        match reflection(side(wall), ends.from, ends.to) {
            None => assert!(rt; false, "{wall:?}"),
            Some(path) => assert!(rt; is_reflection(&path, row), "{wall:?}"),
        }
    }
}

#[test]
fn walls_between_and_long_walls_do_not_reflect(rt: HostRuntime) {
    let wall = side(((0, 0), (262_144, 0)));
    assert!(rt; !is_short(wall));
    assert!(rt; !on_one_side(wall, at((0, 1)), at((0, -1))));
    assert!(rt; !on_one_side(wall, at((0, 1)), at((5, 0))));
}
