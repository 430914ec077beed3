//! Edits of a scene, step by step, and what each answers.
ghost use Rattle.scene_parts.specs.Names.{IsName, IsAnyName};

use crate::outlines::outline;
use scene_book::{Edit, EditFault, Scene};
use scene_parts::{Checked, Class, Name, Part, PlainName, RawPart, RawPoints, check};
use std::alloc::{AllocError, Global};

/// The names of parts.
#[derive(Clone, Copy)]
pub(crate) enum Called {
    A,
    B,
    Grid,
    Wall,
    Ground,
    Wood,
    Hedge,
    Lawn,
    House,
}

/// An edit.
#[derive(Clone, Copy)]
pub(crate) enum Step {
    /// A receiver at this x, in mm.
    Receiver(Called, i64),
    Barrier,
    Building(Called),
    Zone(Called),
    /// A foliage of this height, in mm.
    Foliage(Called, i64),
    /// A grid of so many columns and rows.
    Grid(i64, i64),
    Set,
    Remove(Called),
}

/// What an edit answered.
#[derive(Clone, Copy, PartialEq, Eq)]
pub(crate) enum EditOutcome {
    New,
    Replaced,
    NoName,
    Other(Class),
    Full(Class, u32),
    NoMemory,
    NoPart,
}

pub(crate) fn text(called: Called) -> &'static [u8]
    ensures plain { IsName result.now }
    ensures any { IsAnyName result.now }
{
    match called {
        Called::A => b"a",
        Called::B => b"b",
        Called::Grid => b"g",
        Called::Wall => b"w",
        Called::Ground => b"z",
        Called::Wood => b"wood",
        Called::Hedge => b"hedge",
        Called::Lawn => b"lawn",
        Called::House => b"house",
    }
}

fn name(alloc: Global, called: Called) -> Result<PlainName, AllocError> {
    Ok(PlainName::from_vec(text(called).to_vec(alloc)?))
}

fn corners(alloc: Global) -> Result<RawPoints, AllocError> {
    outline(alloc, &[(0, 0), (1000, 0), (1000, 1000)])
}

fn receiver(alloc: Global, called: Called, x: i64) -> Result<RawPart, AllocError> {
    let name = name(alloc, called)?;
    Ok(RawPart::Receiver {
        name,
        x,
        y: 0,
        h: 4000,
    })
}

fn barrier(alloc: Global) -> Result<RawPart, AllocError> {
    let name = name(alloc, Called::Wall)?;
    let points = corners(alloc)?;
    Ok(RawPart::Barrier {
        name,
        points,
        h: 1,
        density: 10,
        rho: 0,
    })
}

fn building(alloc: Global, called: Called) -> Result<RawPart, AllocError> {
    let name = name(alloc, called)?;
    let points = corners(alloc)?;
    Ok(RawPart::Building {
        name,
        points,
        h: 1,
        rho: 0,
    })
}

fn zone(alloc: Global, called: Called) -> Result<RawPart, AllocError> {
    let name = name(alloc, called)?;
    let points = corners(alloc)?;
    Ok(RawPart::Zone {
        name,
        points,
        g: 100,
    })
}

/// A foliage of a name that is given away.
pub(crate) fn foliage(alloc: Global, name: PlainName, h: i64) -> Result<RawPart, AllocError> {
    let points = corners(alloc)?;
    Ok(RawPart::Foliage { name, points, h })
}

fn grid(alloc: Global, columns: i64, rows: i64) -> Result<RawPart, AllocError> {
    let name = name(alloc, Called::Grid)?;
    Ok(RawPart::Grid {
        name,
        x: 0,
        y: 0,
        step: 1,
        columns,
        rows,
        h: 1,
    })
}

fn setting() -> RawPart {
    RawPart::Set {
        reach: None,
        g: Some(50),
        air: None,
        c0: Some(1000),
        ground: None,
    }
}

/// What an edit that is refused answers.
fn refused(fault: &EditFault) -> EditOutcome {
    match fault {
        EditFault::NoSuchName { .. } => EditOutcome::NoName,
        EditFault::OtherClass { class, .. } => EditOutcome::Other(*class),
        EditFault::Full { class, limit } => EditOutcome::Full(*class, *limit),
        EditFault::NoMemory => EditOutcome::NoMemory,
    }
}

/// What an edit answers that left this.
fn outcome(left: &Result<Option<Part>, EditFault>) -> EditOutcome {
    match left {
        Ok(None) => EditOutcome::New,
        Ok(Some(_)) => EditOutcome::Replaced,
        Err(fault) => refused(fault),
    }
}

fn applied(scene: &mut Scene, alloc: Global, edit: &Edit) -> EditOutcome {
    let left = scene.apply(alloc, edit);
    outcome(&left)
}

/// Puts what was checked.
fn put_checked(scene: &mut Scene, alloc: Global, checked: Checked) -> EditOutcome {
    let edit = Edit::from(checked);
    applied(scene, alloc, &edit)
}

pub(crate) fn put(scene: &mut Scene, alloc: Global, raw: RawPart) -> EditOutcome {
    match check(alloc, raw) {
        Ok(checked) => put_checked(scene, alloc, checked),
        Err(_) => EditOutcome::NoPart,
    }
}

/// Removes the part of a name that is given away.
fn remove_named(scene: &mut Scene, alloc: Global, name: Name) -> EditOutcome {
    let edit = Edit::Remove(name);
    applied(scene, alloc, &edit)
}

/// Removes the part of this name.
fn remove(scene: &mut Scene, alloc: Global, name: &[u8]) -> Result<EditOutcome, AllocError>
    requires { IsAnyName name.now }
{
    let gone = Name::from_vec(name.to_vec(alloc)?);
    Ok(remove_named(scene, alloc, gone))
}

/// The part that a step puts, if it puts one.
fn part(alloc: Global, step: Step) -> Result<RawPart, AllocError> {
    match step {
        Step::Receiver(called, x) => receiver(alloc, called, x),
        Step::Barrier => barrier(alloc),
        Step::Building(called) => building(alloc, called),
        Step::Zone(called) => zone(alloc, called),
        Step::Foliage(called, h) => foliage(alloc, name(alloc, called)?, h),
        Step::Grid(columns, rows) => grid(alloc, columns, rows),
        Step::Set | Step::Remove(_) => Ok(setting()),
    }
}

pub(crate) fn take(
    scene: &mut Scene,
    alloc: Global,
    step: Step,
) -> Result<EditOutcome, AllocError> {
    match step {
        Step::Remove(called) => remove(scene, alloc, text(called)),
        _ => Ok(put(scene, alloc, part(alloc, step)?)),
    }
}
