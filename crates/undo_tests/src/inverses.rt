//! What undoes each kind of edit of a small scene.
use command_lines::{Command, command};
use scene_book::{Edit, Scene};
use scene_parts::{Ground, Part, SetSpec};
use scene_undo::{Inverse, inverse};
use std::alloc::{AllocError, Global};
use std::process::Abort;
use std::test::Fail;

/// An edit as it is to be.
#[derive(Clone, Copy)]
enum Told {
    /// The put of a receiver of this name and height.
    Receiver(&'static str, u32),
    /// The put of a zone of this name and ground factor.
    Zone(&'static str, u8),
    /// The put of a foliage of this name and height.
    Foliage(&'static str, u32),
    Remove(&'static str),
    /// The setting of all globals, with this reach, ground factor and method for ground.
    Set(u32, u8, Ground),
}

/// A line, and what undoes its edit.
type Row = (&'static str, &'static [Told]);

const SCENE: [&'static str; 5] = [
    r#"{"do":"receiver","name":"house","x":100000,"y":0,"h":4000}"#,
    r#"{"do":"zone","name":"lawn","points":[[0,0],[1000,0],[1000,1000]],"g":100}"#,
    r#"{"do":"grid","name":"g","x":0,"y":0,"step":1000,"columns":1,"rows":1,"h":2000}"#,
    r#"{"do":"foliage","name":"wood","points":[[0,0],[20000,0],[20000,20000]],"h":8000}"#,
    r#"{"do":"set","reach":2000000,"ground":"simple"}"#,
];

const ROWS: [Row; 11] = [
    // A new name, and names that are held.
    (
        r#"{"do":"receiver","name":"office","x":0,"y":0,"h":1500}"#,
        &[Told::Remove("office")],
    ),
    (
        r#"{"do":"receiver","name":"house","x":0,"y":0,"h":1500}"#,
        &[Told::Receiver("house", 4000)],
    ),
    (
        r#"{"do":"zone","name":"lawn","points":[[0,0],[1000,0],[0,1000]],"g":0}"#,
        &[Told::Zone("lawn", 100)],
    ),
    (
        r#"{"do":"foliage","name":"wood","points":[[0,0],[5000,0],[0,5000]],"h":12000}"#,
        &[Told::Foliage("wood", 8000)],
    ),
    (
        r#"{"do":"foliage","name":"hedge","points":[[0,0],[5000,0],[0,5000]],"h":2000}"#,
        &[Told::Remove("hedge")],
    ),
    // Removals.
    (
        r#"{"do":"remove","name":"lawn"}"#,
        &[Told::Zone("lawn", 100)],
    ),
    (
        r#"{"do":"remove","name":"wood"}"#,
        &[Told::Foliage("wood", 8000)],
    ),
    (
        r#"{"do":"remove","name":"g/0/0"}"#,
        &[Told::Receiver("g/0/0", 2000)],
    ),
    // A grid whose first receiver is held.
    (
        r#"{"do":"grid","name":"g","x":1000,"y":0,"step":1000,"columns":2,"rows":1,"h":3000}"#,
        &[Told::Receiver("g/0/0", 2000), Told::Remove("g/1/0")],
    ),
    // Settings, of which one gives the method for ground alone.
    (
        r#"{"do":"set","g":50,"c0":1000}"#,
        &[Told::Set(2000000, 0, Ground::Simple)],
    ),
    (
        r#"{"do":"set","ground":"general"}"#,
        &[Told::Set(2000000, 0, Ground::Simple)],
    ),
];

/// The edit of a line, if it is one.
fn edit_of(alloc: Global, line: &str) -> Option<Edit> {
    match command(alloc, line.as_bytes()) {
        Ok(Command::Edit(edit)) => Some(edit),
        _ => None,
    }
}

/// Makes an edit, and tells whether the scene takes it.
fn takes(alloc: Global, scene: &mut Scene, edit: &Edit) -> bool {
    scene.apply(alloc, edit).is_ok()
}

/// Makes edits, one after another, and tells whether the scene takes all.
fn takes_all(alloc: Global, scene: &mut Scene, edits: &[Edit]) -> bool {
    for edit in edits {
        if !takes(alloc, scene, edit) {
            return false;
        }
    }
    true
}

/// Makes the edit of a line, and tells whether the scene takes it.
fn takes_line(alloc: Global, scene: &mut Scene, line: &str) -> bool {
    match edit_of(alloc, line) {
        Some(edit) => takes(alloc, scene, &edit),
        None => false,
    }
}

/// Puts what the scene holds.
fn fill(rt: &impl Abort, alloc: Global, scene: &mut Scene) {
    for line in &SCENE {
        assert!(rt; takes_line(alloc, scene, line), "{line}");
    }
}

fn puts_receiver(edit: &Edit, name: &str, h: u32) -> bool {
    match edit {
        Edit::Put(Part::Receiver(receiver)) => {
            receiver.name.items() == name.as_bytes() && receiver.h == h
        }
        _ => false,
    }
}

fn puts_zone(edit: &Edit, name: &str, g: u8) -> bool {
    match edit {
        Edit::Put(Part::Zone(zone)) => zone.name.items() == name.as_bytes() && zone.g == g,
        _ => false,
    }
}

fn puts_foliage(edit: &Edit, name: &str, h: u32) -> bool {
    match edit {
        Edit::Put(Part::Foliage(foliage)) => {
            foliage.name.items() == name.as_bytes() && foliage.h == h
        }
        _ => false,
    }
}

fn removes(edit: &Edit, name: &str) -> bool {
    match edit {
        Edit::Remove(gone) => gone.items() == name.as_bytes(),
        _ => false,
    }
}

fn is_whole(setting: &SetSpec, reach: u32, g: u8, ground: Ground) -> bool {
    setting.reach == Some(reach)
        && setting.g == Some(g)
        && setting.air.is_some()
        && setting.c0 == Some(0)
        && setting.ground == Some(ground)
}

fn sets_all(edit: &Edit, reach: u32, g: u8, ground: Ground) -> bool {
    match edit {
        Edit::Set(setting) => is_whole(setting, reach, g, ground),
        _ => false,
    }
}

/// Whether an edit is told so.
fn is_told(edit: &Edit, told: Told) -> bool {
    match told {
        Told::Receiver(name, h) => puts_receiver(edit, name, h),
        Told::Zone(name, g) => puts_zone(edit, name, g),
        Told::Foliage(name, h) => puts_foliage(edit, name, h),
        Told::Remove(name) => removes(edit, name),
        Told::Set(reach, g, ground) => sets_all(edit, reach, g, ground),
    }
}

fn are_told(edits: &[Edit], told: &[Told]) -> bool {
    for (edit, told) in edits.iter().zip(told) {
        if !is_told(edit, *told) {
            return false;
        }
    }
    edits.len() == told.len()
}

/// How many parts of each kind a scene has.
fn counts(scene: &Scene) -> (usize, usize, usize) {
    (
        scene.zones().len(),
        scene.foliage().len(),
        scene.receivers().len(),
    )
}

/// Makes an edit, and then these, which lead back.
fn lead_back(rt: &impl Abort, alloc: Global, scene: &mut Scene, edit: &Edit, back: &[Edit]) {
    let before = counts(scene);
    assert!(rt; takes(alloc, scene, edit) && takes_all(alloc, scene, back));
    assert!(rt; counts(scene) == before);
}

/// Makes an edit, and undoes it by this inverse, which is told so.
fn undo(
    rt: &impl Abort,
    alloc: Global,
    scene: &mut Scene,
    edit: &Edit,
    back: Inverse,
    told: &[Told],
) {
    assert!(rt; are_told(back.items(), told));
    lead_back(rt, alloc, scene, edit, &back.into_vec());
}

/// An edit made, and undone.
fn tell_edit(
    rt: &impl Abort,
    alloc: Global,
    scene: &mut Scene,
    edit: &Edit,
    told: &[Told],
) -> Result<(), AllocError> {
    fill(rt, alloc, scene);
    match inverse(alloc, edit, scene) {
        Ok(back) => {
            undo(rt, alloc, scene, edit, back, told);
            Ok(())
        }
        Err(_) => Err(AllocError),
    }
}

/// An edit made in a scene which is empty at first, and undone.
fn tell_empty(
    rt: &impl Abort,
    alloc: Global,
    edit: &Edit,
    told: &[Told],
) -> Result<(), AllocError> {
    match Scene::empty(alloc) {
        Ok(mut scene) => tell_edit(rt, alloc, &mut scene, edit, told),
        Err(_) => Err(AllocError),
    }
}

/// The edit of a line made and undone.
fn tell(rt: &impl Abort, alloc: Global, line: &str, told: &[Told]) -> Result<(), AllocError> {
    match edit_of(alloc, line) {
        Some(edit) => tell_empty(rt, alloc, &edit, told),
        None => Err(AllocError),
    }
}

fn tell_all(rt: &impl Abort, alloc: Global, rows: &[Row]) -> Result<(), AllocError> {
    for (line, told) in rows {
        tell(rt, alloc, line, told)?;
    }
    Ok(())
}

#[test]
fn edits_are_undone(rt: HostRuntime) -> Result<(), Fail> {
    Ok(tell_all(&rt, rt.alloc(), &ROWS)?)
}
