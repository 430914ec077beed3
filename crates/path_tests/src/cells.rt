//! What is near by the index of sides alone: each expected list was calculated from the definition, by an independent
//! program over fractions.
use crate::places::{END, at};
use part_grid::{Found, Grid, Owned, Place, cells_meet};
use scene_geom::{Dir, Frac, Pt, Side};
use std::alloc::{AllocError, Global};
use std::process::Abort;
use std::test::Fail;

/// The greatest component of a direction.
const GREATEST: i64 = 2_110_000_000_000_000_000;

/// A place.
type At = (i64, i64);

/// A side: its obstacle, its number there, and its ends.
type Row = ((u32, u32), At, At);

/// Two points, and the places near the segment between them and near the box with these corners.
type Query = (At, At, &'static str, &'static str);

/// Sides along the borders of cells and on their corners, two of them in one place.
const CITY: [Row; 8] = [
    ((0, 0), (0, 0), (10_000, 0)),
    ((1, 0), (200_000, 0), (210_000, 0)),
    ((1, 1), (65_536, 0), (65_536, 65_536)),
    ((2, 0), (-65_536, -65_536), (-1, -65_536)),
    ((2, 1), (131_072, 131_072), (140_000, 140_000)),
    ((2, 2), (-70_000, 70_000), (-60_000, 60_000)),
    ((3, 0), (-1, -1), (0, 0)),
    ((0, 1), (10_000, 0), (0, 0)),
];

/// What is near in the city.
const IN_CITY: &[Query] = &[
    (
        (5_000, -5_000),
        (5_000, 5_000),
        "0.0 3.0 0.1",
        "0.0 3.0 0.1",
    ),
    (
        (5_000, -5_000),
        (205_000, 5_000),
        "1.0 1.1 3.0",
        "0.0 1.0 1.1 3.0 0.1",
    ),
    (
        (5_000, 0),
        (205_000, 5_000),
        "0.0 1.0 1.1 3.0 0.1",
        "0.0 1.0 1.1 3.0 0.1",
    ),
    ((0, -5_000), (70_000, -1), "3.0", "3.0"),
    ((0, -5_000), (70_000, 0), "1.1 3.0", "0.0 1.1 3.0 0.1"),
    ((65_535, -1), (65_535, -65_537), "3.0", "3.0"),
    ((65_536, 65_536), (65_536, 65_537), "1.1", "1.1"),
    ((131_071, 131_071), (131_072, 131_072), "1.1 2.1", "1.1 2.1"),
    ((131_072, 131_072), (131_071, 131_071), "1.1 2.1", "1.1 2.1"),
    (
        (-1, 131_072),
        (131_072, -1),
        "0.0 1.1 2.2 3.0 0.1",
        "0.0 1.1 2.0 2.1 2.2 3.0 0.1",
    ),
    (
        (-65_536, 65_536),
        (65_536, -65_536),
        "0.0 2.2 3.0 0.1",
        "0.0 1.1 2.0 2.2 3.0 0.1",
    ),
    ((-65_537, 65_535), (-65_537, 65_535), "2.2", "2.2"),
    ((-100_000, 65_536), (-50_000, 65_535), "2.2 3.0", "2.2 3.0"),
    (
        (-196_608, -196_608),
        (196_608, 196_608),
        "0.0 1.1 2.0 2.1 2.2 3.0 0.1",
        "0.0 1.0 1.1 2.0 2.1 2.2 3.0 0.1",
    ),
    (
        (-196_608, -196_607),
        (196_608, 196_609),
        "0.0 1.1 2.0 2.1 2.2 3.0 0.1",
        "0.0 1.0 1.1 2.0 2.1 2.2 3.0 0.1",
    ),
    (
        (196_608, -196_608),
        (-196_608, 196_608),
        "0.0 2.2 3.0 0.1",
        "0.0 1.0 1.1 2.0 2.1 2.2 3.0 0.1",
    ),
    (
        (END, END),
        (-END, -END),
        "0.0 1.1 2.0 2.1 2.2 3.0 0.1",
        "0.0 1.0 1.1 2.0 2.1 2.2 3.0 0.1",
    ),
    ((END, -END), (-END, -END), "", ""),
    (
        (-END, 65_536),
        (END, 65_535),
        "0.0 1.0 1.1 2.2 3.0 0.1",
        "0.0 1.0 1.1 2.2 3.0 0.1",
    ),
    ((0, 0), (0, 0), "0.0 3.0 0.1", "0.0 3.0 0.1"),
    ((-1, 0), (-1, 0), "2.2 3.0", "2.2 3.0"),
    ((196_607, 0), (196_607, 1), "", ""),
    ((196_608, 0), (196_608, -1), "1.0", "1.0"),
];

/// Sides from end to end of the plan, and in its outermost cells.
const PLAN: [Row; 8] = [
    ((0, 0), (-END, -END), (END, END)),
    ((0, 1), (-END, END), (-3_999_000, END)),
    ((1, 0), (END, -END), (END, -3_990_000)),
    ((1, 1), (-131_072, -END), (-131_072, END)),
    ((4, 7), (END, 1), (3_932_160, 65_535)),
    ((4, 8), (-END, -1), (-3_932_161, -65_536)),
    ((5, 0), (0, 0), (65_535, 65_535)),
    ((5, 1), (-65_537, 131_071), (-65_536, 131_072)),
];

/// What is near in the plan.
const IN_PLAN: &[Query] = &[
    (
        (-END, END),
        (END, -END),
        "0.0 0.1 1.0 1.1 5.0 5.1",
        "0.0 0.1 1.0 1.1 4.7 4.8 5.0 5.1",
    ),
    (
        (-END, -END),
        (END, END),
        "0.0 1.1 5.0",
        "0.0 0.1 1.0 1.1 4.7 4.8 5.0 5.1",
    ),
    ((END, END), (END, END), "0.0", "0.0"),
    ((-END, -END), (-END, -END), "0.0", "0.0"),
    ((-END, END), (-END, END), "0.0 0.1", "0.0 0.1"),
    ((END, -END), (END, -END), "0.0 1.0", "0.0 1.0"),
    ((3_932_159, 0), (3_932_159, END), "0.0", "0.0"),
    ((3_932_160, 0), (3_932_160, END), "0.0 4.7", "0.0 4.7"),
    ((-3_932_161, 0), (-3_932_160, -1), "0.0 4.8", "0.0 4.8"),
    ((-131_073, 5), (-131_073, 7), "0.0", "0.0"),
    ((-131_072, 5), (-131_072, 7), "0.0 1.1", "0.0 1.1"),
    ((-END, 1), (END, 0), "0.0 1.1 4.7 5.0", "0.0 1.1 4.7 5.0"),
    (
        (-END, -1),
        (END, 0),
        "0.0 1.1 4.7 4.8",
        "0.0 1.1 4.7 4.8 5.0",
    ),
    ((-END, 0), (END, -1), "0.0 1.1 4.8", "0.0 1.1 4.7 4.8 5.0"),
    ((END, -65_537), (-END, -65_537), "0.0 1.1", "0.0 1.1"),
    (
        (-65_537, 131_070),
        (0, 65_536),
        "0.0 1.1 5.1",
        "0.0 1.1 5.1",
    ),
    ((1, -1), (65_534, -1), "0.0", "0.0"),
    ((-65_536, -65_536), (65_535, 65_535), "0.0 5.0", "0.0 5.0"),
    ((-65_536, 65_535), (65_535, -65_536), "0.0", "0.0 5.0"),
];

/// The start of a way, the components and the divisor of its direction, its end, and the places near it.
type Way = (At, (i64, i64, i64), (i64, i64), &'static str);

/// What is near ways in the city: some end a fraction of a millimetre before the border of a cell, or leave the plan.
const WAYS: &[Way] = &[
    ((0, 0), (1, 0, 1), (65_535, 1), "0.0 3.0 0.1"),
    ((0, 0), (1, 0, 1), (65_536, 1), "0.0 1.1 3.0 0.1"),
    ((0, 0), (3, 1, 7), (458_752, 3), "0.0 1.1 3.0 0.1"),
    ((0, 0), (3, 1, 7), (458_751, 3), "0.0 3.0 0.1"),
    (
        (65_536, 65_536),
        (-3, -2, 5),
        (327_681, 3),
        "0.0 1.1 2.2 3.0 0.1",
    ),
    (
        (65_536, 65_536),
        (-3, -2, 5),
        (327_680, 3),
        "0.0 1.1 3.0 0.1",
    ),
    ((200_000, -1), (0, 5, 3), (3, 5), "1.0"),
    ((200_000, -1), (0, 5, 3), (2, 5), ""),
    ((-1, -1), (-7, 9, 2), (200_000, 9), "2.0 2.2 3.0"),
    (
        (4_000_000, -4_000_000),
        (-1, 1, 1),
        (8_000_000, 1),
        "0.0 2.2 3.0 0.1",
    ),
    (
        (4_000_000, -4_000_000),
        (-1, 1, 1),
        (16_000_000, 1),
        "0.0 2.2 3.0 0.1",
    ),
    (
        (-100_000, 131_072),
        (100_001, -65_536, 1),
        (5, 2),
        "0.0 1.1 2.2 3.0 0.1",
    ),
    (
        (0, 0),
        (-1, 5_000_000_000_000, 1),
        (65_535, 5_000_000_000_000),
        "0.0 2.2 3.0 0.1",
    ),
    (
        (10_000, 10_000),
        (68_718_952_449, 68_718_952_448, 68_718_952_449),
        (1, 2),
        "0.0 3.0 0.1",
    ),
    (
        (-65_537, -65_537),
        (1, 1, 68_718_952_449),
        (2_970_000_000_000, 1),
        "2.0 3.0",
    ),
    ((5_000, 5_000), (0, 0, 1), (1, 2), "0.0 3.0 0.1"),
];

fn side(from: At, to: At) -> Side {
    Side {
        from: at(from),
        to: at(to),
    }
}

/// The sides of a table.
fn sides(alloc: Global, rows: &[Row]) -> Result<Vec<Owned>, AllocError> {
    let mut sides = Vec::new(alloc);
    for row in rows {
        let (place, from, to) = *row;
        sides.push(Owned {
            obstacle: place.0,
            index: place.1,
            side: side(from, to),
        })?;
    }
    Ok(sides)
}

/// The corners of the box that holds two points.
fn corners(a: At, b: At) -> (Pt, Pt) {
    (
        at((a.0.min(b.0), a.1.min(b.1))),
        at((a.0.max(b.0), a.1.max(b.1))),
    )
}

/// The places of what a query found.
fn places(alloc: Global, found: &Found) -> Result<Vec<Place>, AllocError> {
    let mut places = Vec::new(alloc);
    for owned in found.sides() {
        places.push(owned.place())?;
    }
    Ok(places)
}

/// Places as the tables show them.
fn listed(alloc: Global, places: &[Place]) -> Result<String, AllocError> {
    let mut text = String::new(alloc);
    for place in places {
        if !text.is_empty() {
            text.push_str(" ")?;
        }
        write!(text, "{}.{}", place.obstacle, place.index)?;
    }
    Ok(text)
}

/// Expects these places.
fn expect_places(
    rt: &impl Abort,
    alloc: Global,
    places: &[Place],
    expected: &str,
) -> Result<(), AllocError> {
    let text = listed(alloc, places)?;
    assert!(rt; text.as_str() == expected);
    Ok(())
}

/// Expects the places of what a query found.
fn expect_found(
    rt: &impl Abort,
    alloc: Global,
    found: &Found,
    expected: &str,
) -> Result<(), AllocError> {
    let places = places(alloc, found)?;
    expect_places(rt, alloc, places.as_slice(), expected)
}

/// Expects what is near the segment and the box of two points, by lent buffers.
fn expect_lent(
    rt: &impl Abort,
    alloc: Global,
    grid: &Grid,
    row: &Query,
    found: &mut Found,
) -> Result<(), AllocError> {
    let (a, b, near, boxed) = *row;
    let (low, high) = corners(a, b);
    grid.find_near(at(a), at(b), found)?;
    expect_found(rt, alloc, found, near)?;
    grid.find_near_box(low, high, found)?;
    expect_found(rt, alloc, found, boxed)
}

/// Expects what is near the segment by new buffers, with its ends exchanged.
fn expect_near(
    rt: &impl Abort,
    alloc: Global,
    grid: &Grid,
    (a, b, near, _): Query,
) -> Result<(), AllocError> {
    let found = grid.near(alloc, at(b), at(a))?;
    expect_places(rt, alloc, found.as_slice(), near)
}

/// Expects what is near the box by new buffers.
fn expect_near_box(
    rt: &impl Abort,
    alloc: Global,
    grid: &Grid,
    (a, b, _, boxed): Query,
) -> Result<(), AllocError> {
    let (low, high) = corners(a, b);
    let found = grid.near_box(alloc, low, high)?;
    expect_places(rt, alloc, found.as_slice(), boxed)
}

/// Expects what a row tells, by lent buffers and by new ones.
fn expect_row(
    rt: &impl Abort,
    alloc: Global,
    grid: &Grid,
    row: &Query,
    found: &mut Found,
) -> Result<(), AllocError> {
    expect_lent(rt, alloc, grid, row, found)?;
    expect_near(rt, alloc, grid, *row)?;
    expect_near_box(rt, alloc, grid, *row)
}

/// Expects what these rows tell of a grid.
fn expect_in_grid(
    rt: &impl Abort,
    alloc: Global,
    grid: &Grid,
    rows: &[Query],
) -> Result<(), AllocError> {
    let mut found = Found::new(alloc);
    for row in rows {
        expect_row(rt, alloc, grid, row, &mut found)?;
    }
    Ok(())
}

/// Expects what these rows tell of the grid of these sides.
fn expect_rows(
    rt: &impl Abort,
    alloc: Global,
    sides: &[Owned],
    rows: &[Query],
) -> Result<(), AllocError> {
    let grid = Grid::build(alloc, sides)?;
    expect_in_grid(rt, alloc, &grid, rows)
}

#[test]
fn the_city_has_these_near(rt: HostRuntime) -> Result<(), Fail> {
    let sides = sides(rt.alloc(), &CITY)?;
    Ok(expect_rows(&rt, rt.alloc(), sides.as_slice(), IN_CITY)?)
}

#[test]
fn the_plan_has_these_near(rt: HostRuntime) -> Result<(), Fail> {
    let sides = sides(rt.alloc(), &PLAN)?;
    Ok(expect_rows(&rt, rt.alloc(), sides.as_slice(), IN_PLAN)?)
}

/// Expects nothing near from corner to corner of the plan.
fn expect_nothing(rt: &impl Abort, alloc: Global, grid: &Grid) -> Result<(), AllocError> {
    let near = grid.near(alloc, at((-END, -END)), at((END, END)))?;
    assert_eq!(rt; near.len(), 0);
    Ok(())
}

#[test]
fn nothing_is_near_without_sides(rt: HostRuntime) -> Result<(), Fail> {
    let grid = Grid::build(rt.alloc(), &[])?;
    Ok(expect_nothing(&rt, rt.alloc(), &grid)?)
}

#[test]
fn cells_meet_where_they_are_near(rt: HostRuntime) {
    let wall = side((200_000, 0), (210_000, 0));
    let other = side((0, 0), (10_000, 0));
    let met = [
        cells_meet(wall, at((5000, 0)), at((205_000, 5000))),
        cells_meet(wall, at((5000, -5000)), at((5000, 5000))),
        cells_meet(other, at((5000, -5000)), at((205_000, 5000))),
    ];
    assert!(rt; met == [true, false, false]);
}

/// Expects the places near a way.
fn expect_way(
    rt: &impl Abort,
    alloc: Global,
    grid: &Grid,
    way: &Way,
    found: &mut Found,
) -> Result<(), AllocError> {
    let (from, (x, y, w), (n, d), expected) = *way;
    let dir = Dir {
        x: x.clamp(-GREATEST, GREATEST).into(),
        y: y.clamp(-GREATEST, GREATEST).into(),
        w: w.clamp(1, 68_718_952_449).into(),
    };
    let end = Frac {
        n: n.clamp(1, 2_970_000_000_000).into(),
        d: d.clamp(1, 5_940_000_000_000).into(),
    };
    grid.find_near_way(at(from), dir, end, found)?;
    expect_found(rt, alloc, found, expected)
}

/// Expects the places near all ways.
fn expect_ways(rt: &impl Abort, alloc: Global, grid: &Grid) -> Result<(), AllocError> {
    let mut found = Found::new(alloc);
    for way in WAYS {
        expect_way(rt, alloc, grid, way, &mut found)?;
    }
    Ok(())
}

/// The grid of the sides of a table.
fn grid_of_rows(alloc: Global, rows: &[Row]) -> Result<Grid, AllocError> {
    let sides = sides(alloc, rows)?;
    Grid::build(alloc, sides.as_slice())
}

#[test]
fn the_city_has_these_near_ways(rt: HostRuntime) -> Result<(), Fail> {
    let grid = grid_of_rows(rt.alloc(), &CITY)?;
    Ok(expect_ways(&rt, rt.alloc(), &grid)?)
}
