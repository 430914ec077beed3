//! Parts and settings that are checked, with answers from outside, by an independent program: the least values outside
//! each range, the greatest inside, and the first of two faults.
use crate::outlines::outline;
use scene_parts::{Checked, Field, PartFault, PlainName, RawPart, Word, check};
use std::alloc::{AllocError, Global};
use std::process::Abort;
use std::test::Fail;

/// The corners of an outline, in mm.
type Corners = &'static [(i64, i64)];

/// What a line gives.
#[derive(Clone, Copy)]
enum Given {
    /// Corners, mass and what it reflects.
    Barrier(Corners, i64, i64),
    /// Corners and height.
    Building(Corners, i64),
    /// Corners and ground factor.
    Zone(Corners, i64),
    /// Corners and height.
    Foliage(Corners, i64),
    /// Kind, x, height, sound power at 125 Hz and directivity.
    Source(&'static [u8], i64, i64, i64, i64),
    /// Step, columns, rows and height.
    Grid(i64, i64, i64, i64),
    /// Reach, ground factor, air and C_0.
    Setting(i64, i64, &'static [u8], i64),
    /// Air and the method for ground.
    Ground(&'static [u8], &'static [u8]),
}

#[derive(Clone, Copy, PartialEq, Eq)]
enum Answer {
    Accepted,
    NoMemory,
    Outside(Field, i64),
    Method,
    Unknown,
    Light(u32),
    Few(u32),
    Flat,
    Long(u32, u32),
    Weak(u16),
}

const LONG: Corners = &[(0, 0), (262_143, 0)];

const TRIANGLE: Corners = &[(0, 0), (200_000, 0), (200_000, 200_000)];

const SHORT: Corners = &[(0, 0), (1000, 0)];

const AREA: Corners = &[(0, 0), (1000, 0), (1000, 1000)];

const OBSTACLES: &[(Given, Answer)] = &[
    (Given::Barrier(LONG, 10, 201), Answer::Accepted),
    (Given::Barrier(LONG, 9, 1), Answer::Light(9)),
    (
        Given::Barrier(LONG, 100_001, 1001),
        Answer::Outside(Field::Density, 100_001),
    ),
    (Given::Barrier(LONG, 10, 200), Answer::Weak(200)),
    (Given::Barrier(&[(0, 0)], 10, 0), Answer::Few(1)),
    (Given::Barrier(&[(5, 5), (5, 5)], 10, 0), Answer::Flat),
    (
        Given::Barrier(&[(0, 0), (185_363, 185_364)], 10, 0),
        Answer::Long(0, 262_143),
    ),
    (Given::Building(TRIANGLE, 1), Answer::Long(2, 282_842)),
    (Given::Building(TRIANGLE, 0), Answer::Outside(Field::H, 0)),
    (
        Given::Building(&[(0, 0), (10, 0), (20, 0)], 1),
        Answer::Flat,
    ),
    (Given::Barrier(SHORT, 100_000, 0), Answer::Accepted),
    (Given::Barrier(SHORT, 0, 0), Answer::Light(0)),
    (
        Given::Barrier(SHORT, -1, 0),
        Answer::Outside(Field::Density, -1),
    ),
];

const SOURCES_AND_GRIDS: &[(Given, Answer)] = &[
    (
        Given::Source(b"road", 4_000_000, 100_000, 16_000, 2000),
        Answer::Accepted,
    ),
    (
        Given::Source(b"blast", 4_000_001, 1, 0, 0),
        Answer::Outside(Field::X, 4_000_001),
    ),
    (
        Given::Source(b"road", -4_000_001, 0, 0, 0),
        Answer::Outside(Field::X, -4_000_001),
    ),
    (
        Given::Source(b"road", 0, 100_001, 16_001, 0),
        Answer::Outside(Field::H, 100_001),
    ),
    (
        Given::Source(b"road", 0, 1, -2001, 2001),
        Answer::Outside(Field::Lw, -2001),
    ),
    (
        Given::Source(b"road", 0, 1, 0, -3001),
        Answer::Outside(Field::Dc, -3001),
    ),
    (Given::Source(b"blast", 0, 1, 0, 0), Answer::Method),
    (Given::Source(b"car", 0, 1, 0, 0), Answer::Unknown),
    (Given::Grid(1_000_000, 2, 5, 1), Answer::Accepted),
    (
        Given::Grid(1_000_000, 3, 6, 0),
        Answer::Outside(Field::Columns, 3),
    ),
    (
        Given::Grid(1_000_000, 2, 6, 0),
        Answer::Outside(Field::Rows, 6),
    ),
    (
        Given::Grid(1_000_001, 0, 0, 1),
        Answer::Outside(Field::Step, 1_000_001),
    ),
];

const ZONES_AND_SETTINGS: &[(Given, Answer)] = &[
    (Given::Zone(AREA, 100), Answer::Accepted),
    (Given::Zone(SHORT, 101), Answer::Outside(Field::G, 101)),
    (Given::Zone(SHORT, -1), Answer::Outside(Field::G, -1)),
    (Given::Zone(SHORT, 0), Answer::Few(2)),
    (
        Given::Setting(4_000_000, 100, b"15/80", 1000),
        Answer::Accepted,
    ),
    (Given::Setting(1, 0, b"10/70", 0), Answer::Accepted),
    (
        Given::Setting(4_000_001, 101, b"", 1001),
        Answer::Outside(Field::Reach, 4_000_001),
    ),
    (
        Given::Setting(0, 0, b"", 0),
        Answer::Outside(Field::Reach, 0),
    ),
    (
        Given::Setting(1, 101, b"", 1001),
        Answer::Outside(Field::G, 101),
    ),
    (
        Given::Setting(1, 0, b"25/70", 1001),
        Answer::Outside(Field::C0, 1001),
    ),
    (
        Given::Setting(1, 0, b"25/70", -1),
        Answer::Outside(Field::C0, -1),
    ),
    (Given::Setting(1, 0, b"25/70", 0), Answer::Unknown),
];

const FOLIAGE: &[(Given, Answer)] = &[
    (Given::Foliage(AREA, 1), Answer::Accepted),
    (Given::Foliage(AREA, 100_000), Answer::Accepted),
    (Given::Foliage(TRIANGLE, 1), Answer::Accepted),
    (Given::Foliage(SHORT, 0), Answer::Outside(Field::H, 0)),
    (
        Given::Foliage(SHORT, 100_001),
        Answer::Outside(Field::H, 100_001),
    ),
    (Given::Foliage(&[], 1), Answer::Few(0)),
    (Given::Foliage(SHORT, 1), Answer::Few(2)),
    (Given::Foliage(&[(0, 0), (10, 0), (20, 0)], 1), Answer::Flat),
];

const METHODS: &[(Given, Answer)] = &[
    (Given::Ground(b"10/70", b"general"), Answer::Accepted),
    (Given::Ground(b"10/70", b"simple"), Answer::Accepted),
    (Given::Ground(b"10/70", b"soft"), Answer::Unknown),
    (Given::Ground(b"10/70", b""), Answer::Unknown),
    (Given::Ground(b"25/70", b"simple"), Answer::Unknown),
];

fn name(alloc: Global) -> Result<PlainName, AllocError> {
    Ok(PlainName::from_vec(b"a".to_vec(alloc)?))
}

fn barrier(alloc: Global, corners: Corners, density: i64, rho: i64) -> Result<RawPart, AllocError> {
    let points = outline(alloc, corners)?;
    Ok(RawPart::Barrier {
        name: name(alloc)?,
        points,
        h: 1,
        density,
        rho,
    })
}

fn building(alloc: Global, corners: Corners, h: i64) -> Result<RawPart, AllocError> {
    let points = outline(alloc, corners)?;
    Ok(RawPart::Building {
        name: name(alloc)?,
        points,
        h,
        rho: 0,
    })
}

fn zone(alloc: Global, corners: Corners, g: i64) -> Result<RawPart, AllocError> {
    let points = outline(alloc, corners)?;
    Ok(RawPart::Zone {
        name: name(alloc)?,
        points,
        g,
    })
}

fn foliage(alloc: Global, corners: Corners, h: i64) -> Result<RawPart, AllocError> {
    let points = outline(alloc, corners)?;
    Ok(RawPart::Foliage {
        name: name(alloc)?,
        points,
        h,
    })
}

fn source(
    alloc: Global,
    kind: &[u8],
    x: i64,
    h: i64,
    level: i64,
    dc: i64,
) -> Result<RawPart, AllocError> {
    let kind = Word::from_vec(kind.to_vec(alloc)?);
    Ok(RawPart::Source {
        name: name(alloc)?,
        kind,
        x,
        y: 0,
        h,
        lw: [None, Some(level), None, None, None, None, None, None],
        dc,
    })
}

fn grid(alloc: Global, step: i64, columns: i64, rows: i64, h: i64) -> Result<RawPart, AllocError> {
    Ok(RawPart::Grid {
        name: name(alloc)?,
        x: 3_000_000,
        y: 0,
        step,
        columns,
        rows,
        h,
    })
}

fn setting(alloc: Global, reach: i64, g: i64, air: &[u8], c0: i64) -> Result<RawPart, AllocError> {
    Ok(RawPart::Set {
        reach: Some(reach),
        g: Some(g),
        air: Some(Word::from_vec(air.to_vec(alloc)?)),
        c0: Some(c0),
        ground: None,
    })
}

fn method(alloc: Global, air: &[u8], ground: &[u8]) -> Result<RawPart, AllocError> {
    Ok(RawPart::Set {
        reach: None,
        g: None,
        air: Some(Word::from_vec(air.to_vec(alloc)?)),
        c0: None,
        ground: Some(Word::from_vec(ground.to_vec(alloc)?)),
    })
}

/// The part or setting of a line.
fn raw(alloc: Global, given: Given) -> Result<RawPart, AllocError> {
    match given {
        Given::Barrier(corners, density, rho) => barrier(alloc, corners, density, rho),
        Given::Building(corners, h) => building(alloc, corners, h),
        Given::Zone(corners, g) => zone(alloc, corners, g),
        Given::Foliage(corners, h) => foliage(alloc, corners, h),
        Given::Source(kind, x, h, level, dc) => source(alloc, kind, x, h, level, dc),
        Given::Grid(step, columns, rows, h) => grid(alloc, step, columns, rows, h),
        Given::Setting(reach, g, air, c0) => setting(alloc, reach, g, air, c0),
        Given::Ground(air, ground) => method(alloc, air, ground),
    }
}

/// The answer to a part that was checked so.
fn answered(checked: &Result<Checked, PartFault>) -> Answer {
    match checked {
        Ok(_) => Answer::Accepted,
        Err(fault) => refused(fault),
    }
}

/// The answer to a part that has this fault.
fn refused(fault: &PartFault) -> Answer {
    match fault {
        PartFault::NoMemory => Answer::NoMemory,
        PartFault::OutOfRange { field, value } => Answer::Outside(*field, *value),
        PartFault::OutsideMethod { .. } => Answer::Method,
        PartFault::UnknownKind { .. } => Answer::Unknown,
        PartFault::TooLight { density } => Answer::Light(*density),
        PartFault::FewCorners { count } => Answer::Few(*count),
        PartFault::FlatShape => Answer::Flat,
        PartFault::SideTooLong { side, mm } => Answer::Long(*side, *mm),
        PartFault::WeakMirror { rho } => Answer::Weak(*rho),
    }
}

fn told(alloc: Global, raw: RawPart) -> Answer {
    answered(&check(alloc, raw))
}

/// Asserts the answers of these rows.
fn are_told(rt: &impl Abort, alloc: Global, rows: &[(Given, Answer)]) -> Result<(), AllocError> {
    for (given, expected) in rows {
        let found = told(alloc, raw(alloc, *given)?);
        assert!(rt; found == *expected);
    }
    Ok(())
}

#[test]
fn obstacles_have_these_answers(rt: HostRuntime) -> Result<(), Fail> {
    Ok(are_told(&rt, rt.alloc(), OBSTACLES)?)
}

#[test]
fn sources_and_grids_have_these_answers(rt: HostRuntime) -> Result<(), Fail> {
    Ok(are_told(&rt, rt.alloc(), SOURCES_AND_GRIDS)?)
}

#[test]
fn zones_and_settings_have_these_answers(rt: HostRuntime) -> Result<(), Fail> {
    Ok(are_told(&rt, rt.alloc(), ZONES_AND_SETTINGS)?)
}

#[test]
fn foliage_has_these_answers(rt: HostRuntime) -> Result<(), Fail> {
    Ok(are_told(&rt, rt.alloc(), FOLIAGE)?)
}

#[test]
fn methods_for_ground_have_these_answers(rt: HostRuntime) -> Result<(), Fail> {
    Ok(are_told(&rt, rt.alloc(), METHODS)?)
}
