//! Foliage put, put again and removed, beside parts of other classes, and the method for ground, with answers from
//! outside, by an independent program.
ghost use Rattle.std.specs.Prelude.{◌≡◌, ◌<◌, true};
ghost use Rattle.scene_parts.specs.Names.{is_name_byte};

use crate::steps::{Called, EditOutcome, Step, foliage, put, take};
use scene_book::Scene;
use scene_parts::{Air, Class, Ground, PlainName, RawPart, Word};
use std::alloc::{AllocError, Global};
use std::process::Abort;
use std::test::Fail;

/// An edit, what it answers, and how many foliages, zones and receivers there are then.
type Row = (Step, EditOutcome, (usize, usize, usize));

const ROWS: [Row; 15] = [
    (
        Step::Foliage(Called::Wood, 5000),
        EditOutcome::New,
        (1, 0, 0),
    ),
    (
        Step::Zone(Called::Wood),
        EditOutcome::Other(Class::Foliage),
        (1, 0, 0),
    ),
    (
        Step::Building(Called::Wood),
        EditOutcome::Other(Class::Foliage),
        (1, 0, 0),
    ),
    (
        Step::Receiver(Called::Wood, 0),
        EditOutcome::Other(Class::Foliage),
        (1, 0, 0),
    ),
    (Step::Zone(Called::Lawn), EditOutcome::New, (1, 1, 0)),
    (
        Step::Foliage(Called::Lawn, 5000),
        EditOutcome::Other(Class::Zone),
        (1, 1, 0),
    ),
    (
        Step::Receiver(Called::House, 0),
        EditOutcome::New,
        (1, 1, 1),
    ),
    (
        Step::Foliage(Called::House, 5000),
        EditOutcome::Other(Class::Receiver),
        (1, 1, 1),
    ),
    (
        Step::Foliage(Called::Hedge, 2000),
        EditOutcome::New,
        (2, 1, 1),
    ),
    // One that is put again keeps its place.
    (
        Step::Foliage(Called::Wood, 6000),
        EditOutcome::Replaced,
        (2, 1, 1),
    ),
    (
        Step::Foliage(Called::Hedge, 100_001),
        EditOutcome::NoPart,
        (2, 1, 1),
    ),
    (Step::Remove(Called::Lawn), EditOutcome::Replaced, (2, 0, 1)),
    (Step::Remove(Called::Lawn), EditOutcome::NoName, (2, 0, 1)),
    (
        Step::Foliage(Called::Lawn, 1000),
        EditOutcome::New,
        (3, 0, 1),
    ),
    (Step::Remove(Called::Lawn), EditOutcome::Replaced, (2, 0, 1)),
];

/// How many foliages, zones and receivers there are.
fn counted(scene: &Scene) -> (usize, usize, usize) {
    (
        scene.foliage().len(),
        scene.zones().len(),
        scene.receivers().len(),
    )
}

/// Whether the foliage is the wood, which was put again higher, and then the hedge.
fn are_in_place(scene: &Scene) -> bool {
    let wood = scene.foliage().first().map(|first| first.h);
    let hedge = scene.foliage().last().map(|last| last.h);
    wood == Some(6000) && hedge == Some(2000)
}

/// Does all edits of the rows, and has each answer and the numbers of parts behind it compared.
fn edit_all(rt: &impl Abort, alloc: Global, scene: &mut Scene) -> Result<(), AllocError> {
    for (step, outcome, counts) in &ROWS {
        let answer = take(scene, alloc, *step)?;
        assert!(rt; answer == *outcome && counted(scene) == *counts);
    }
    Ok(())
}

/// Does all edits, and compares the foliage behind them.
fn edit_and_compare(rt: &impl Abort, alloc: Global, scene: &mut Scene) -> Result<(), AllocError> {
    edit_all(rt, alloc, scene)?;
    assert!(rt; are_in_place(scene));
    Ok(())
}

/// The letter of this number.
fn letter(number: u32) -> u8
    ensures { is_name_byte result ≡ true }
{
    b'a' + (number % 26) as u8
}

/// Puts a foliage with a name of three letters, another one for each number below 17,576.
fn put_numbered(scene: &mut Scene, alloc: Global, number: u32) -> Result<EditOutcome, AllocError> {
    let letters = [letter(number / 676), letter(number / 26), letter(number)];
    let name = PlainName::from_vec(letters.to_vec(alloc)?);
    Ok(put(scene, alloc, foliage(alloc, name, 1)?))
}

/// What the foliage of this number answers: the first 1,024 are new, and the next ones find no room.
fn answer_of(number: u32) -> EditOutcome {
    if number < 1024 {
        EditOutcome::New
    } else {
        EditOutcome::Full(Class::Foliage, 1024)
    }
}

/// Puts so many, one after another.
fn fill(rt: &impl Abort, alloc: Global, scene: &mut Scene, count: u32) -> Result<(), AllocError> {
    for number in 0..count {
        let answer = put_numbered(scene, alloc, number)?;
        assert!(rt; answer == answer_of(number));
    }
    Ok(())
}

/// Puts two more than there is room for, and then the last again that found room.
fn overfill(rt: &impl Abort, alloc: Global, scene: &mut Scene) -> Result<(), AllocError> {
    fill(rt, alloc, scene, 1026)?;
    let again = put_numbered(scene, alloc, 1023)?;
    assert!(rt; again == EditOutcome::Replaced && counted(scene) == (1024, 0, 0));
    Ok(())
}

fn whole_setting(alloc: Global) -> Result<RawPart, AllocError> {
    Ok(RawPart::Set {
        reach: Some(1_000_000),
        g: Some(50),
        air: Some(Word::from_vec(b"20/70".to_vec(alloc)?)),
        c0: Some(200),
        ground: None,
    })
}

/// A setting of the method for ground alone, or of nothing.
fn method(alloc: Global, ground: Option<&'static [u8]>) -> Result<RawPart, AllocError> {
    let ground = match ground {
        None => None,
        Some(word) => Some(Word::from_vec(word.to_vec(alloc)?)),
    };
    Ok(RawPart::Set {
        reach: None,
        g: None,
        air: None,
        c0: None,
        ground,
    })
}

/// Whether all but the method for ground is as the whole setting left it, and the method is this one.
fn are_set(scene: &Scene, ground: Ground) -> bool {
    let globals = scene.globals();
    let others = (globals.reach, globals.g, globals.c0) == (1_000_000, 50, 200);
    others && globals.air == Air::Celsius20Humidity70 && globals.ground == ground
}

/// A setting of the method alone, or of nothing, and the method then.
const METHODS: &[(Option<&'static [u8]>, Ground)] = &[
    (None, Ground::General),
    (Some(b"simple"), Ground::Simple),
    (None, Ground::Simple),
    (Some(b"general"), Ground::General),
];

/// Sets all methods in turn, and has the globals behind each compared.
fn set_all(rt: &impl Abort, alloc: Global, scene: &mut Scene) -> Result<(), AllocError> {
    for (word, ground) in METHODS {
        put(scene, alloc, method(alloc, *word)?);
        assert!(rt; are_set(scene, *ground));
    }
    Ok(())
}

/// Sets all but the method for ground, and then all methods in turn.
fn set_whole_and_all(rt: &impl Abort, alloc: Global, scene: &mut Scene) -> Result<(), AllocError> {
    put(scene, alloc, whole_setting(alloc)?);
    set_all(rt, alloc, scene)
}

/// What is looked at.
#[derive(Clone, Copy)]
enum Subject {
    Edits,
    Room,
    Methods,
}

/// Looks at that in a scene which is empty so far.
fn look_at(
    rt: &impl Abort,
    alloc: Global,
    scene: &mut Scene,
    subject: Subject,
) -> Result<(), AllocError> {
    match subject {
        Subject::Edits => edit_and_compare(rt, alloc, scene),
        Subject::Room => overfill(rt, alloc, scene),
        Subject::Methods => set_whole_and_all(rt, alloc, scene),
    }
}

/// Looks at that in a scene of its own.
fn look_at_empty(rt: &impl Abort, alloc: Global, subject: Subject) -> Result<(), AllocError> {
    match Scene::empty(alloc) {
        Ok(mut scene) => look_at(rt, alloc, &mut scene, subject),
        Err(_) => Err(AllocError),
    }
}

#[test]
fn foliage_is_edited_as_told(rt: HostRuntime) -> Result<(), Fail> {
    Ok(look_at_empty(&rt, rt.alloc(), Subject::Edits)?)
}

#[test]
fn foliage_is_full_at_1024(rt: HostRuntime) -> Result<(), Fail> {
    Ok(look_at_empty(&rt, rt.alloc(), Subject::Room)?)
}

#[test]
fn method_for_ground_is_set_alone(rt: HostRuntime) -> Result<(), Fail> {
    Ok(look_at_empty(&rt, rt.alloc(), Subject::Methods)?)
}
