//! Pieces of some lines, with places and powers from outside, by an independent program.
use command_lines::{Command, LineSpec, command};
use line_sources::{LineEdits, pieces, unline};
use scene_book::{Edit, Scene};
use scene_parts::{Part, PointSource};
use std::alloc::Global;
use std::process::Abort;
use std::test::Fail;

/// The name, the place and the level at 1 kHz of a source.
type Told = (&'static str, i32, i32, Option<i32>);

/// A line, how many pieces it has, and its first and its last.
type Row = (&'static str, usize, Told, Told);

const ROWS: [Row; 7] = [
    (
        r#"{"do":"line","name":"l","kind":"road","points":[[0,0],[20000,0]],"h":2000,"lw":[null,null,null,null,8000,null,null,null],"piece":10000}"#,
        2,
        ("l/0", 5000, 0, Some(9000)),
        ("l/1", 15000, 0, Some(9000)),
    ),
    // A leg of a millimetre.
    (
        r#"{"do":"line","name":"l","kind":"road","points":[[0,0],[1,0]],"h":2000,"lw":[null,null,null,null,8000,null,null,null],"piece":1000}"#,
        1,
        ("l/0", 0, 0, Some(4999)),
        ("l/0", 0, 0, Some(4999)),
    ),
    // Pieces as long as they may be, and a millimetre more.
    (
        r#"{"do":"line","name":"l","kind":"road","points":[[0,0],[3000,0]],"h":2000,"lw":[null,null,null,null,8000,null,null,null],"piece":1000}"#,
        3,
        ("l/0", 500, 0, Some(8000)),
        ("l/2", 2500, 0, Some(8000)),
    ),
    (
        r#"{"do":"line","name":"l","kind":"road","points":[[0,0],[3001,0]],"h":2000,"lw":[null,null,null,null,8000,null,null,null],"piece":1000}"#,
        4,
        ("l/0", 375, 0, Some(7875)),
        ("l/3", 2625, 0, Some(7875)),
    ),
    // Repeated points.
    (
        r#"{"do":"line","name":"l","kind":"road","points":[[7,7],[7,7],[1007,7],[1007,7],[1007,1507]],"h":2000,"lw":[null,null,null,null,8000,null,null,null],"piece":1000}"#,
        3,
        ("l/0", 507, 7, Some(8000)),
        ("l/2", 1007, 1132, Some(7875)),
    ),
    // Places below 0 are rounded down too.
    (
        r#"{"do":"line","name":"l","kind":"road","points":[[-3,5],[-2006,-1998]],"h":2000,"lw":[null,null,null,null,8000,null,null,null],"piece":1000}"#,
        3,
        ("l/0", -337, -329, Some(7975)),
        ("l/2", -1673, -1665, Some(7975)),
    ),
    // As many pieces as a scene has sources.
    (
        r#"{"do":"line","name":"l","kind":"road","points":[[0,0],[128000,0]],"h":2000,"lw":[null,null,null,null,8000,null,null,null],"piece":1000}"#,
        128,
        ("l/0", 500, 0, Some(8000)),
        ("l/127", 127500, 0, Some(8000)),
    ),
];

/// Whether a source is told so.
fn is_told(source: &PointSource, told: &Told) -> bool {
    source.name.items() == told.0.as_bytes()
        && source.at.x == told.1
        && source.at.y == told.2
        && source.lw[4] == told.3
}

/// Whether the edit puts a source that is told so.
fn puts(edit: Option<&Edit>, told: &Told) -> bool {
    match edit {
        Some(Edit::Put(Part::Source(source))) => is_told(source, told),
        _ => false,
    }
}

fn spec_of(alloc: Global, line: &str) -> Result<LineSpec, Fail> {
    match command(alloc, line.as_bytes())? {
        Command::Line(spec) => Ok(spec),
        _ => Err(Fail::from("no line source")),
    }
}

fn apply_all(alloc: Global, scene: &mut Scene, edits: &LineEdits) -> Result<(), Fail> {
    for edit in edits.items() {
        scene.apply(alloc, edit)?;
    }
    Ok(())
}

/// Whether the edits are those of a row.
fn are_told(edits: &[Edit], row: &Row) -> bool {
    edits.len() == row.1 && puts(edits.first(), &row.2) && puts(edits.last(), &row.3)
}

/// How many edits take a line source out again, once these have put it into a scene.
fn taken_out(
    alloc: Global,
    mut scene: Scene,
    spec: &LineSpec,
    edits: &LineEdits,
) -> Result<usize, Fail> {
    apply_all(alloc, &mut scene, edits)?;
    let removes = unline(alloc, &spec.name, &scene)?;
    Ok(removes.items().len())
}

/// A line source put into a scene without parts, and taken out of it again.
fn tell(rt: &impl Abort, alloc: Global, row: &Row) -> Result<(), Fail> {
    let spec = spec_of(alloc, row.0)?;
    let scene = Scene::empty(alloc)?;
    let edits = pieces(alloc, &spec, &scene)?;
    assert!(rt; are_told(edits.items(), row));
    let count = taken_out(alloc, scene, &spec, &edits)?;
    assert!(rt; count == row.1);
    Ok(())
}

#[test]
fn lines_are_cut_into_sources(rt: HostRuntime) -> Result<(), Fail> {
    for row in &ROWS {
        tell(&rt, rt.alloc(), row)?;
    }
    Ok(())
}
