//! Edits in a row, with answers from outside, by an independent program.
use crate::steps::{Called, EditOutcome, Step, take};
use scene_book::Scene;
use scene_parts::{Class, Receiver};
use std::alloc::{AllocError, Global};
use std::process::Abort;
use std::test::Fail;

/// An edit, what it answers, and how many receivers, obstacles and zones there are then.
type Row = (Step, EditOutcome, (usize, usize, usize));

const ROWS: [Row; 13] = [
    (Step::Receiver(Called::A, 1), EditOutcome::New, (1, 0, 0)),
    (Step::Receiver(Called::B, 2), EditOutcome::New, (2, 0, 0)),
    (Step::Barrier, EditOutcome::New, (2, 1, 0)),
    // One name for parts of two classes.
    (
        Step::Building(Called::Wall),
        EditOutcome::Other(Class::Barrier),
        (2, 1, 0),
    ),
    (
        Step::Receiver(Called::Wall, 3),
        EditOutcome::Other(Class::Barrier),
        (2, 1, 0),
    ),
    // Grids that are too large, alone and beside what is there.
    (
        Step::Grid(4096, 4096),
        EditOutcome::Full(Class::Receiver, 4096),
        (2, 1, 0),
    ),
    (
        Step::Grid(64, 64),
        EditOutcome::Full(Class::Receiver, 4096),
        (2, 1, 0),
    ),
    (Step::Grid(2, 2), EditOutcome::New, (6, 1, 0)),
    (Step::Zone(Called::Ground), EditOutcome::New, (6, 1, 1)),
    (Step::Set, EditOutcome::New, (6, 1, 1)),
    (Step::Remove(Called::A), EditOutcome::Replaced, (5, 1, 1)),
    // A grid's name is no part's.
    (Step::Remove(Called::Grid), EditOutcome::NoName, (5, 1, 1)),
    // One that is replaced keeps its place.
    (
        Step::Receiver(Called::B, 3),
        EditOutcome::Replaced,
        (5, 1, 1),
    ),
];

/// The receivers after all edits, each by its x in mm and its name.
const RECEIVERS: [(i32, &'static [u8]); 5] = [
    (3, b"b"),
    (0, b"g/0/0"),
    (1, b"g/1/0"),
    (0, b"g/0/1"),
    (1, b"g/1/1"),
];

/// How many receivers, obstacles and zones there are.
fn counted(scene: &Scene) -> (usize, usize, usize) {
    (
        scene.receivers().len(),
        scene.obstacles().len(),
        scene.zones().len(),
    )
}

/// Does all edits of the rows, and has each answer and the numbers of parts behind it compared.
fn edit_all(rt: &impl Abort, alloc: Global, scene: &mut Scene) -> Result<(), AllocError> {
    for (step, outcome, counts) in &ROWS {
        let answer = take(scene, alloc, *step)?;
        assert!(rt; answer == *outcome && counted(scene) == *counts);
    }
    Ok(())
}

/// Reach, ground factor and C_0 of a scene.
fn told(scene: &Scene) -> (u32, u8, u16) {
    let globals = scene.globals();
    (globals.reach, globals.g, globals.c0)
}

/// Compares what holds of the whole of an empty scene.
fn has_defaults(rt: &impl Abort, scene: &Scene) {
    assert!(rt; told(scene) == (4_000_000, 0, 0));
}

/// Whether a receiver is the one with this x in mm and this name.
fn is_edited(receiver: &Receiver, x: i32, name: &[u8]) -> bool {
    receiver.at.x == x && receiver.name.items() == name
}

/// Asserts that receivers have these x and names, in this order.
fn are_edited(rt: &impl Abort, receivers: &[Receiver], told: &[(i32, &[u8])]) {
    assert!(rt; receivers.len() == told.len());
    for (receiver, (x, name)) in receivers.iter().zip(told) {
        assert!(rt; is_edited(receiver, *x, name));
    }
}

/// Compares the ground and what holds of the whole scene after all edits.
fn keeps_rest(rt: &impl Abort, scene: &Scene) {
    let ground = scene.zones().first().map(|zone| zone.g);
    assert!(rt; ground == Some(100) && told(scene) == (4_000_000, 50, 1000));
}

/// Removes the zone, which a copy keeps.
fn copy_keeps(
    rt: &impl Abort,
    alloc: Global,
    scene: &mut Scene,
    copy: &Scene,
) -> Result<(), AllocError> {
    take(scene, alloc, Step::Remove(Called::Ground))?;
    assert!(rt; scene.zones().is_empty());
    keeps_receivers(rt, copy);
    keeps_rest(rt, copy);
    Ok(())
}

/// Compares the receivers after all edits.
fn keeps_receivers(rt: &impl Abort, scene: &Scene) {
    are_edited(rt, scene.receivers(), &RECEIVERS);
}

/// Compares what a scene and its copy keep after all edits.
fn compare(rt: &impl Abort, alloc: Global, scene: &mut Scene) -> Result<(), AllocError> {
    keeps_receivers(rt, scene);
    match scene.copy() {
        Ok(copy) => copy_keeps(rt, alloc, scene, &copy),
        Err(_) => Err(AllocError),
    }
}

/// Does all edits, and compares what the scene and a copy keep.
fn edit_and_compare(rt: &impl Abort, alloc: Global, scene: &mut Scene) -> Result<(), AllocError> {
    edit_all(rt, alloc, scene)?;
    compare(rt, alloc, scene)
}

/// What is looked at.
#[derive(Clone, Copy)]
enum Subject {
    Defaults,
    Edits,
}

/// Looks at that in a scene which is empty so far.
fn look_at(
    rt: &impl Abort,
    alloc: Global,
    scene: &mut Scene,
    subject: Subject,
) -> Result<(), AllocError> {
    match subject {
        Subject::Defaults => {
            has_defaults(rt, scene);
            Ok(())
        }
        Subject::Edits => edit_and_compare(rt, alloc, scene),
    }
}

/// Looks at that in a scene of its own.
fn look_at_empty(rt: &impl Abort, alloc: Global, subject: Subject) -> Result<(), AllocError> {
    match Scene::empty(alloc) {
        Ok(mut scene) => look_at(rt, alloc, &mut scene, subject),
        Err(_) => Err(AllocError),
    }
}

#[test]
fn an_empty_scene_has_defaults(rt: HostRuntime) -> Result<(), Fail> {
    Ok(look_at_empty(&rt, rt.alloc(), Subject::Defaults)?)
}

#[test]
fn edits_answer_in_a_row_and_copies_keep_them(rt: HostRuntime) -> Result<(), Fail> {
    Ok(look_at_empty(&rt, rt.alloc(), Subject::Edits)?)
}
