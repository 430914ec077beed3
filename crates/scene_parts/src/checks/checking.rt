//! Parts as lines give them, with numbers of any size, and their check.
ghost use Rattle.std.specs.Prelude.{◌≡◌, codes};
ghost use Rattle.scene_parts.specs.Answers.{MatchesUnlessMemory, lacks_memory};
ghost use Rattle.scene_parts.specs.Checking.{word_of, check_of};

use crate::checks::checked::Checked;
use crate::checks::powers::{directivity, powers};
use crate::checks::ranges::{
    column_count, height, in_range, optional_in_range, plan_point, row_count,
};
use crate::faults::PartFault;
use crate::kinds::{Field, Shape};
use crate::limits::{FULL_REFLECTION, MAX_C0, MAX_DENSITY, MAX_GROUND_FACTOR, MAX_REACH, MAX_STEP};
use crate::outlines::RawPoints;
use crate::outlines::shapes::{check_density, check_outline, check_surface, corners};
use crate::parts::{Foliage, Obstacle, Part, PointSource, Receiver, Zone};
use crate::settings::{GridSpec, SetSpec};
use crate::texts::{PlainName, Word};
use crate::words::{kind_named, optional_air, optional_ground};
use std::alloc::Global;

/// A part, a grid or a setting as a line gives it, before it is checked.
#[derive(Debug, Drop)]
pub enum RawPart {
    Source {
        name: PlainName,
        kind: Word,
        x: i64,
        y: i64,
        h: i64,
        lw: [Option<i64>; 8],
        dc: i64,
    },
    Barrier {
        name: PlainName,
        points: RawPoints,
        h: i64,
        density: i64,
        rho: i64,
    },
    Building {
        name: PlainName,
        points: RawPoints,
        h: i64,
        rho: i64,
    },
    Zone {
        name: PlainName,
        points: RawPoints,
        g: i64,
    },
    Foliage {
        name: PlainName,
        points: RawPoints,
        h: i64,
    },
    Receiver {
        name: PlainName,
        x: i64,
        y: i64,
        h: i64,
    },
    Grid {
        name: PlainName,
        x: i64,
        y: i64,
        step: i64,
        columns: i64,
        rows: i64,
        h: i64,
    },
    Set {
        reach: Option<i64>,
        g: Option<i64>,
        air: Option<Word>,
        c0: Option<i64>,
        ground: Option<Word>,
    },
}

/// Checks what a line gives: the part, the grid or the setting, or the first fault in the order of
/// their numbers. Memory is taken for the corners of an outline.
pub fn check(alloc: Global, raw: RawPart) -> Result<Checked, PartFault>
    ensures { MatchesUnlessMemory lacks_memory result (check_of raw) }
{
    match raw {
        RawPart::Source { .. } => source(raw),
        RawPart::Barrier { .. } => barrier(alloc, raw),
        RawPart::Building { .. } => building(alloc, raw),
        RawPart::Zone { .. } => zone(alloc, raw),
        RawPart::Foliage { .. } => foliage(alloc, raw),
        RawPart::Receiver { .. } => receiver(raw),
        RawPart::Grid { .. } => grid(raw),
        RawPart::Set { .. } => setting(raw),
    }
}

#[tactic(auto, unfolding(crate::specs::Checking::check_of))]
fn source(raw: RawPart) -> Result<Checked, PartFault>
    requires { word_of raw ≡ codes "source" }
    ensures { result ≡ check_of raw }
{
    let RawPart::Source {
        name,
        kind,
        x,
        y,
        h,
        lw,
        dc,
    } = raw
    else {
        unreachable!()
    };
    Ok(Checked::Part(Part::Source(PointSource {
        at: plan_point(Field::X, Field::Y, x, y)?,
        h: height(h)?,
        lw: powers(-2000, 16000, lw)?,
        dc: directivity(dc)?,
        kind: kind_named(kind)?,
        name: name.into_name(),
    })))
}

#[tactic(auto, unfolding(crate::specs::Checking::check_of))]
fn barrier(alloc: Global, raw: RawPart) -> Result<Checked, PartFault>
    requires { word_of raw ≡ codes "barrier" }
    ensures { MatchesUnlessMemory lacks_memory result (check_of raw) }
{
    let RawPart::Barrier {
        name,
        points,
        h,
        density,
        rho,
    } = raw
    else {
        unreachable!()
    };
    let points = corners(alloc, points.items())?;
    let h = height(h)?;
    let density = in_range(Field::Density, 0, MAX_DENSITY, density)?;
    let rho = in_range(Field::Rho, 0, FULL_REFLECTION, rho)? as u16;
    check_density(density)?;
    check_surface(Shape::Barrier, points.items(), rho)?;
    Ok(Checked::Part(Part::Obstacle(Obstacle {
        name: name.into_name(),
        shape: Shape::Barrier,
        points,
        h,
        rho,
    })))
}

#[tactic(auto, unfolding(crate::specs::Checking::check_of))]
fn building(alloc: Global, raw: RawPart) -> Result<Checked, PartFault>
    requires { word_of raw ≡ codes "building" }
    ensures { MatchesUnlessMemory lacks_memory result (check_of raw) }
{
    let RawPart::Building {
        name,
        points,
        h,
        rho,
    } = raw
    else {
        unreachable!()
    };
    let points = corners(alloc, points.items())?;
    let h = height(h)?;
    let rho = in_range(Field::Rho, 0, FULL_REFLECTION, rho)? as u16;
    check_surface(Shape::Building, points.items(), rho)?;
    Ok(Checked::Part(Part::Obstacle(Obstacle {
        name: name.into_name(),
        shape: Shape::Building,
        points,
        h,
        rho,
    })))
}

#[tactic(auto, unfolding(crate::specs::Checking::check_of))]
fn zone(alloc: Global, raw: RawPart) -> Result<Checked, PartFault>
    requires { word_of raw ≡ codes "zone" }
    ensures { MatchesUnlessMemory lacks_memory result (check_of raw) }
{
    let RawPart::Zone { name, points, g } = raw else {
        unreachable!()
    };
    let points = corners(alloc, points.items())?;
    let g = in_range(Field::G, 0, MAX_GROUND_FACTOR, g)? as u8;
    check_outline(Shape::Building, points.items())?;
    Ok(Checked::Part(Part::Zone(Zone {
        name: name.into_name(),
        points,
        g,
    })))
}

#[tactic(auto, unfolding(crate::specs::Checking::check_of))]
fn foliage(alloc: Global, raw: RawPart) -> Result<Checked, PartFault>
    requires { word_of raw ≡ codes "foliage" }
    ensures { MatchesUnlessMemory lacks_memory result (check_of raw) }
{
    let RawPart::Foliage { name, points, h } = raw else {
        unreachable!()
    };
    let points = corners(alloc, points.items())?;
    let h = height(h)?;
    check_outline(Shape::Building, points.items())?;
    Ok(Checked::Part(Part::Foliage(Foliage {
        name: name.into_name(),
        points,
        h,
    })))
}

#[tactic(auto, unfolding(crate::specs::Checking::check_of))]
fn receiver(raw: RawPart) -> Result<Checked, PartFault>
    requires { word_of raw ≡ codes "receiver" }
    ensures { result ≡ check_of raw }
{
    let RawPart::Receiver { name, x, y, h } = raw else {
        unreachable!()
    };
    Ok(Checked::Part(Part::Receiver(Receiver {
        at: plan_point(Field::X, Field::Y, x, y)?,
        h: height(h)?,
        name: name.into_name(),
    })))
}

#[tactic(auto, unfolding(crate::specs::Checking::check_of))]
fn grid(raw: RawPart) -> Result<Checked, PartFault>
    requires { word_of raw ≡ codes "grid" }
    ensures { result ≡ check_of raw }
{
    let RawPart::Grid {
        name,
        x,
        y,
        step,
        columns,
        rows,
        h,
    } = raw
    else {
        unreachable!()
    };
    let at = plan_point(Field::X, Field::Y, x, y)?;
    let step = in_range(Field::Step, 1, MAX_STEP, step)?;
    let columns = column_count(at, step, columns)?;
    let rows = row_count(at, step, rows)?;
    let h = height(h)?;
    Ok(Checked::Grid(GridSpec {
        name: name.into_name(),
        at,
        step,
        columns,
        rows,
        h,
    }))
}

#[tactic(auto, unfolding(crate::specs::Checking::check_of))]
fn setting(raw: RawPart) -> Result<Checked, PartFault>
    requires { word_of raw ≡ codes "set" }
    ensures { result ≡ check_of raw }
{
    let RawPart::Set {
        reach,
        g,
        air,
        c0,
        ground,
    } = raw
    else {
        unreachable!()
    };
    Ok(Checked::Set(SetSpec {
        reach: optional_in_range(Field::Reach, 1, MAX_REACH, reach)?,
        g: optional_in_range(Field::G, 0, MAX_GROUND_FACTOR, g)?.map(|g| g as u8),
        c0: optional_in_range(Field::C0, 0, MAX_C0, c0)?.map(|c0| c0 as u16),
        air: optional_air(air)?,
        ground: optional_ground(ground)?,
    }))
}
