//! Edits of scenes, with answers from outside, by an independent program.
ghost use Rattle.scene_parts.specs.Names.{IsName, IsAnyName};

use crate::paths;
use crate::scenes::{outline, put};
use path_calc::Bundle;
use scene_book::{Edit, Logged, Scene};
use scene_parts::{Globals, Name, PlainName, RawPart, Receiver, Word};
use std::alloc::Global;
use std::process::Abort;
use touch_test::{touches, touches_row};

/// The names of parts.
#[derive(Clone, Copy)]
enum Called {
    Source,
    Other,
    Receiver,
    Neighbour,
    Grid,
    Double,
    Wall,
    House,
    Ground,
}

/// The corners of an outline, in mm.
type Corners = &'static [(i64, i64)];

/// An edit: a source and a receiver by their places, a barrier and a building by corners, height and what they reflect per
/// mille, a zone by corners and ground factor, a grid by its first place, columns and rows.
#[derive(Clone, Copy)]
enum Step {
    Source(Called, i64, i64),
    Receiver(Called, i64, i64),
    Barrier(Called, Corners, i64, i64),
    Building(Called, Corners, i64, i64),
    Zone(Called, Corners, i64),
    Grid(Called, i64, i64, i64),
    Remove(Called),
    Hard,
}

/// What stands beside source and receiver, which receiver is asked, an edit, and whether it touches the path from the
/// source and the receiver.
type Row = (&'static [Step], usize, Step, bool, bool);

/// Source and receiver.
const PAIR: [Step; 2] = [
    Step::Source(Called::Source, 0, 0),
    Step::Receiver(Called::Receiver, 100_000, 0),
];

/// Source and receiver alone.
const NOTHING: [Step; 0] = [];

/// A barrier across the line, and a building that blocks the string round it on the left.
const SCREEN: [Step; 2] = [
    Step::Barrier(Called::Wall, &[(50000, -10000), (50000, 10000)], 12000, 0),
    Step::Building(
        Called::House,
        &[(72000, 3000), (78000, 3000), (78000, 9000), (72000, 9000)],
        6000,
        0,
    ),
];

/// A building far from the line.
const FAR_HOUSE: [Step; 1] = [Step::Building(
    Called::House,
    &[
        (200000, 200000),
        (210000, 200000),
        (210000, 210000),
        (200000, 210000),
    ],
    5000,
    0,
)];

/// A zone that holds the whole line.
const FIELD: [Step; 1] = [Step::Zone(
    Called::Ground,
    &[
        (-50000, -50000),
        (150000, -50000),
        (150000, 50000),
        (-50000, 50000),
    ],
    100,
)];

/// A wall whose west end is 1 mm west of the middle, so that it mirrors.
const MIRROR: [Step; 1] = [Step::Barrier(
    Called::Wall,
    &[(49999, 30000), (149999, 30000)],
    10000,
    1000,
)];

/// The same wall, which absorbs.
const DULL: [Step; 1] = [Step::Barrier(Called::Wall, &[(49999, 30000), (149999, 30000)], 10000, 0)];

/// A barrier that screens from 125 Hz on.
const SMALL: [Step; 1] = [Step::Barrier(Called::Wall, &[(50000, -2500), (50000, 2500)], 4000, 0)];

/// A source out of reach.
const OTHER_FAR: [Step; 1] = [Step::Source(Called::Other, 4000000, 4000000)];

/// Receivers in 12 columns and 3 rows.
const GRID: [Step; 1] = [Step::Grid(Called::Grid, 100000, 12, 3)];

/// Edits of what screens, far from the line and in a zone.
const SCREENS: [Row; 4] = [
    // The blocked string on the left crosses what is removed.
    (&SCREEN, 0, Step::Remove(Called::House), true, true),
    // A wall that is moved away was in the way.
    (
        &SCREEN,
        0,
        Step::Barrier(
            Called::Wall,
            &[(3000000, -10000), (3000000, 10000)],
            12000,
            0,
        ),
        true,
        true,
    ),
    // Far from every segment.
    (
        &FAR_HOUSE,
        0,
        Step::Building(
            Called::House,
            &[
                (-300000, 200000),
                (-290000, 200000),
                (-290000, 210000),
                (-300000, 210000),
            ],
            5000,
            0,
        ),
        false,
        false,
    ),
    // No side crosses the line in a zone.
    (
        &FIELD,
        0,
        Step::Zone(
            Called::Ground,
            &[
                (-50000, -50000),
                (150000, -50000),
                (150000, 50000),
                (-50000, 50000),
            ],
            50,
        ),
        true,
        true,
    ),
];

/// Edits of what mirrors or might mirror.
const MIRRORS: [Row; 10] = [
    // Where it would mirror, but it absorbs.
    (
        &NOTHING,
        0,
        Step::Barrier(Called::Wall, &[(49999, 30000), (149999, 30000)], 10000, 0),
        false,
        false,
    ),
    (
        &NOTHING,
        0,
        Step::Barrier(
            Called::Wall,
            &[(49999, 30000), (149999, 30000)],
            10000,
            1000,
        ),
        true,
        true,
    ),
    (
        &NOTHING,
        0,
        Step::Barrier(
            Called::Wall,
            &[(50000, 30000), (150000, 30000)],
            10000,
            1000,
        ),
        false,
        false,
    ),
    (
        &NOTHING,
        0,
        Step::Barrier(Called::Wall, &[(49999, 30000), (149999, 30000)], 1999, 1000),
        false,
        false,
    ),
    (&MIRROR, 0, Step::Remove(Called::Wall), true, true),
    (
        &MIRROR,
        0,
        Step::Barrier(Called::Wall, &[(49999, 30000), (149999, 30000)], 10000, 0),
        true,
        true,
    ),
    (&DULL, 0, Step::Remove(Called::Wall), false, false),
    (
        &MIRROR,
        0,
        Step::Barrier(Called::Wall, &[(3000000, 0), (3000000, 1000)], 10000, 0),
        true,
        true,
    ),
    // The outside of a building, and its inside.
    (
        &NOTHING,
        0,
        Step::Building(
            Called::House,
            &[
                (20000, 30000),
                (80000, 30000),
                (80000, 50000),
                (20000, 50000),
            ],
            10000,
            800,
        ),
        true,
        true,
    ),
    (
        &NOTHING,
        0,
        Step::Building(
            Called::House,
            &[
                (-50000, -50000),
                (150000, -50000),
                (150000, 50000),
                (-50000, 50000),
            ],
            10000,
            800,
        ),
        false,
        false,
    ),
];

/// Edits that cross the legs and the line, touch them, or stay beside them.
const CROSSINGS: [Row; 9] = [
    // The first leg, the second, and past the wall.
    (
        &MIRROR,
        0,
        Step::Barrier(Called::House, &[(20000, 10000), (25000, 20000)], 3000, 0),
        true,
        true,
    ),
    (
        &MIRROR,
        0,
        Step::Barrier(Called::House, &[(80000, 10000), (75000, 20000)], 3000, 0),
        true,
        true,
    ),
    (
        &MIRROR,
        0,
        Step::Barrier(Called::House, &[(50000, 31000), (60000, 50000)], 3000, 0),
        false,
        false,
    ),
    (
        &DULL,
        0,
        Step::Barrier(Called::House, &[(20000, 10000), (25000, 20000)], 3000, 0),
        false,
        false,
    ),
    (
        &NOTHING,
        0,
        Step::Barrier(Called::Wall, &[(50000, -1000), (50000, 1000)], 1, 0),
        true,
        true,
    ),
    // A corner that touches the line from the left, and one from the right.
    (
        &NOTHING,
        0,
        Step::Barrier(
            Called::Wall,
            &[(40000, 5000), (50000, 0), (60000, 5000)],
            1,
            0,
        ),
        true,
        true,
    ),
    (
        &NOTHING,
        0,
        Step::Barrier(
            Called::Wall,
            &[(40000, -5000), (50000, 0), (60000, -5000)],
            1,
            0,
        ),
        false,
        false,
    ),
    (
        &NOTHING,
        0,
        Step::Barrier(Called::Wall, &[(10000, 0), (90000, 0)], 9000, 0),
        false,
        false,
    ),
    (
        &NOTHING,
        0,
        Step::Barrier(Called::Wall, &[(-10, -1000), (-10, 1000)], 9000, 0),
        false,
        false,
    ),
];

/// Edits on strings and beside them.
const STRINGS: [Row; 5] = [
    // A string on the left, on the right, and beside it.
    (
        &SMALL,
        0,
        Step::Barrier(Called::House, &[(25000, 1000), (25000, 2000)], 1, 0),
        true,
        true,
    ),
    (
        &SMALL,
        0,
        Step::Barrier(Called::House, &[(75000, -2000), (75000, -1000)], 1, 0),
        true,
        true,
    ),
    (
        &SMALL,
        0,
        Step::Barrier(Called::House, &[(25000, 1300), (25000, 2000)], 1, 0),
        false,
        false,
    ),
    (
        &NOTHING,
        0,
        Step::Barrier(Called::House, &[(25000, 1000), (25000, 2000)], 1, 0),
        false,
        false,
    ),
    (&SMALL, 0, Step::Remove(Called::Wall), true, true),
];

/// Edits of zones.
const ZONES: [Row; 7] = [
    (
        &NOTHING,
        0,
        Step::Zone(
            Called::Ground,
            &[(40000, -1000), (60000, -1000), (60000, 1000)],
            100,
        ),
        true,
        true,
    ),
    (
        &NOTHING,
        0,
        Step::Zone(
            Called::Ground,
            &[(40000, 1), (60000, 1), (60000, 1000)],
            100,
        ),
        false,
        false,
    ),
    (&FIELD, 0, Step::Remove(Called::Ground), true, true),
    // A zone that a leg meets, and one that a string crosses.
    (
        &MIRROR,
        0,
        Step::Zone(
            Called::Ground,
            &[(70000, 15000), (80000, 15000), (75000, 25000)],
            100,
        ),
        true,
        true,
    ),
    (
        &DULL,
        0,
        Step::Zone(
            Called::Ground,
            &[(70000, 15000), (80000, 15000), (75000, 25000)],
            100,
        ),
        false,
        false,
    ),
    (
        &SMALL,
        0,
        Step::Zone(
            Called::Ground,
            &[(24000, 1000), (26000, 1000), (25000, 2000)],
            100,
        ),
        false,
        false,
    ),
    (
        &FIELD,
        0,
        Step::Zone(
            Called::Ground,
            &[(0, 900000), (1000, 900000), (0, 901000)],
            100,
        ),
        true,
        true,
    ),
];

/// Edits of sources and receivers.
const ENDS: [Row; 10] = [
    (&NOTHING, 0, Step::Source(Called::Source, 0, 0), true, true),
    (&NOTHING, 0, Step::Remove(Called::Source), true, true),
    // A source that comes, one that comes nearer, one that stays away, and one that goes.
    (
        &NOTHING,
        0,
        Step::Source(Called::Other, 4000000, 0),
        false,
        true,
    ),
    (
        &OTHER_FAR,
        0,
        Step::Source(Called::Other, 1000, 0),
        false,
        true,
    ),
    (
        &OTHER_FAR,
        0,
        Step::Source(Called::Other, 4000000, -4000000),
        false,
        false,
    ),
    (&OTHER_FAR, 0, Step::Remove(Called::Other), false, false),
    (
        &NOTHING,
        0,
        Step::Source(Called::Other, 4000000, 1),
        false,
        true,
    ),
    (
        &NOTHING,
        0,
        Step::Receiver(Called::Receiver, 100000, 0),
        true,
        true,
    ),
    (
        &NOTHING,
        0,
        Step::Receiver(Called::Neighbour, 100000, 0),
        false,
        false,
    ),
    (&NOTHING, 0, Step::Remove(Called::Receiver), true, true),
];

/// Edits of grids and of settings.
const GRIDS: [Row; 7] = [
    // The receiver of a grid's column 11 and row 2, by grids of more and of fewer columns and rows, and of another name.
    (&GRID, 36, Step::Grid(Called::Grid, 0, 12, 3), true, true),
    (&GRID, 36, Step::Grid(Called::Grid, 0, 11, 3), false, false),
    (&GRID, 36, Step::Grid(Called::Grid, 0, 12, 2), false, false),
    (
        &GRID,
        36,
        Step::Grid(Called::Double, 0, 12, 3),
        false,
        false,
    ),
    (&GRID, 11, Step::Grid(Called::Grid, 0, 11, 1), true, true),
    (&GRID, 0, Step::Grid(Called::Grid, 0, 12, 3), false, false),
    (&NOTHING, 0, Step::Hard, true, true),
];

fn text(called: Called) -> &'static [u8]
    ensures plain { IsName result.now }
    ensures any { IsAnyName result.now }
{
    match called {
        Called::Source => b"s",
        Called::Other => b"t",
        Called::Receiver => b"r",
        Called::Neighbour => b"q",
        Called::Grid => b"g",
        Called::Double => b"gg",
        Called::Wall => b"a",
        Called::House => b"b",
        Called::Ground => b"z",
    }
}

fn named(alloc: Global, called: Called) -> Option<PlainName> {
    Some(PlainName::from_vec(text(called).to_vec(alloc).ok()?))
}

fn source(alloc: Global, called: Called, x: i64, y: i64) -> Option<RawPart> {
    let name = named(alloc, called)?;
    Some(RawPart::Source {
        name,
        kind: Word::from_vec(b"industry".to_vec(alloc).ok()?),
        x,
        y,
        h: 2000,
        lw: [None, None, None, None, Some(10_000), None, None, None],
        dc: 0,
    })
}

fn receiver(alloc: Global, called: Called, x: i64, y: i64) -> Option<RawPart> {
    Some(RawPart::Receiver {
        name: named(alloc, called)?,
        x,
        y,
        h: 2000,
    })
}

fn barrier(alloc: Global, called: Called, corners: Corners, h: i64, rho: i64) -> Option<RawPart> {
    let points = outline(alloc, corners)?;
    Some(RawPart::Barrier {
        name: named(alloc, called)?,
        points,
        h,
        density: 20,
        rho,
    })
}

fn building(alloc: Global, called: Called, corners: Corners, h: i64, rho: i64) -> Option<RawPart> {
    let points = outline(alloc, corners)?;
    Some(RawPart::Building {
        name: named(alloc, called)?,
        points,
        h,
        rho,
    })
}

fn zone(alloc: Global, called: Called, corners: Corners, g: i64) -> Option<RawPart> {
    let points = outline(alloc, corners)?;
    Some(RawPart::Zone {
        name: named(alloc, called)?,
        points,
        g,
    })
}

fn grid(alloc: Global, called: Called, x: i64, columns: i64, rows: i64) -> Option<RawPart> {
    Some(RawPart::Grid {
        name: named(alloc, called)?,
        x,
        y: 0,
        step: 1000,
        columns,
        rows,
        h: 2000,
    })
}

fn hard_ground() -> RawPart {
    RawPart::Set {
        reach: None,
        g: Some(0),
        air: None,
        c0: None,
        ground: None,
    }
}

/// The part that a step puts, if it puts one.
fn raw(alloc: Global, step: Step) -> Option<RawPart> {
    match step {
        Step::Source(called, x, y) => source(alloc, called, x, y),
        Step::Receiver(called, x, y) => receiver(alloc, called, x, y),
        Step::Barrier(called, corners, h, rho) => barrier(alloc, called, corners, h, rho),
        Step::Building(called, corners, h, rho) => building(alloc, called, corners, h, rho),
        Step::Zone(called, corners, g) => zone(alloc, called, corners, g),
        Step::Grid(called, x, columns, rows) => grid(alloc, called, x, columns, rows),
        Step::Hard => Some(hard_ground()),
        Step::Remove(_) => None,
    }
}

fn remove(alloc: Global, called: Called) -> Option<Edit> {
    let name = text(called).to_vec(alloc).ok()?;
    Some(Edit::Remove(Name::from_vec(name)))
}

fn edit(alloc: Global, step: Step) -> Option<Edit> {
    match step {
        Step::Remove(called) => remove(alloc, called),
        _ => put(alloc, raw(alloc, step)?),
    }
}

/// An edit that the scene takes. Each step of a case is a function of its own: the proof of a function grows fast with the
/// values that it has to drop.
fn taken(alloc: Global, scene: &mut Scene, edit: Edit) -> Option<Logged> {
    match scene.apply(alloc, &edit) {
        Ok(old) => Some(Logged { edit, old }),
        Err(_) => None,
    }
}

fn take(alloc: Global, scene: &mut Scene, step: Step) -> Option<Logged> {
    taken(alloc, scene, edit(alloc, step)?)
}

fn take_all(alloc: Global, scene: &mut Scene, steps: &[Step]) -> Option<()> {
    for step in steps {
        take(alloc, scene, *step)?;
    }
    Some(())
}

/// Source and receiver 100 m apart, with these parts beside them.
fn scene_with(alloc: Global, beside: &[Step]) -> Option<Scene> {
    let mut scene = Scene::empty(alloc).ok()?;
    take_all(alloc, &mut scene, &PAIR)?;
    take_all(alloc, &mut scene, beside)?;
    Some(scene)
}

/// The bundle of the source and a receiver.
fn path(alloc: Global, scene: &Scene, receiver: &Receiver) -> Option<Bundle> {
    let source = scene.sources().first()?;
    paths::path(alloc, scene, source, receiver)
}

/// Whether an edit that was taken touches the path of this bundle, and its receiver.
fn told(
    logged: &Logged,
    globals: &Globals,
    found: &[Bundle; 1],
    receiver: &Receiver,
) -> (bool, bool) {
    let path = touches(logged, globals, &found[0], receiver);
    (path, touches_row(logged, globals, found, receiver))
}

/// The same of an edit that the scene takes next.
fn touches_found(
    alloc: Global,
    scene: &mut Scene,
    receiver: &Receiver,
    found: &[Bundle; 1],
    step: Step,
) -> Option<(bool, bool)> {
    let globals = *scene.globals();
    let logged = take(alloc, scene, step)?;
    Some(told(&logged, &globals, found, receiver))
}

/// Whether the scene's next edit touches the path from the source to a receiver, and this receiver.
fn touches_heard(
    alloc: Global,
    scene: &mut Scene,
    receiver: &Receiver,
    step: Step,
) -> Option<(bool, bool)> {
    let found = [path(alloc, scene, receiver)?];
    touches_found(alloc, scene, receiver, &found, step)
}

fn receiver_at(scene: &Scene, place: usize) -> Option<Receiver> {
    scene.receivers().get(place)?.clone().ok()
}

fn touches_at(alloc: Global, scene: &mut Scene, place: usize, step: Step) -> Option<(bool, bool)> {
    let receiver = receiver_at(scene, place)?;
    touches_heard(alloc, scene, &receiver, step)
}

/// Whether the edit of a row touches the path from the source to its receiver, and this receiver.
fn touched(alloc: Global, row: &Row) -> Option<(bool, bool)> {
    let mut scene = scene_with(alloc, row.0)?;
    touches_at(alloc, &mut scene, row.1, row.2)
}

/// Asserts what the edits of these rows touch.
fn touch_what_is_read(rt: &impl Abort, alloc: Global, rows: &[Row]) {
    for row in rows {
        assert_eq!(rt; touched(alloc, row), Some((row.3, row.4)));
    }
}

#[test]
fn edits_beside_the_line(rt: HostRuntime) {
    touch_what_is_read(&rt, rt.alloc(), &SCREENS);
}

#[test]
fn edits_of_what_mirrors(rt: HostRuntime) {
    touch_what_is_read(&rt, rt.alloc(), &MIRRORS);
}

#[test]
fn edits_across_the_legs_and_the_line(rt: HostRuntime) {
    touch_what_is_read(&rt, rt.alloc(), &CROSSINGS);
}

#[test]
fn edits_on_strings(rt: HostRuntime) {
    touch_what_is_read(&rt, rt.alloc(), &STRINGS);
}

#[test]
fn edits_of_zones(rt: HostRuntime) {
    touch_what_is_read(&rt, rt.alloc(), &ZONES);
}

#[test]
fn edits_of_sources_and_receivers(rt: HostRuntime) {
    touch_what_is_read(&rt, rt.alloc(), &ENDS);
}

#[test]
fn edits_of_grids_and_settings(rt: HostRuntime) {
    touch_what_is_read(&rt, rt.alloc(), &GRIDS);
}
