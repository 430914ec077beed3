//! Two courses of a shared board in one thread, with ample memory: answers that land after later edits. The levels are from
//! outside.
ghost use Rattle.std.specs.Prelude.{◌≡◌, []};
ghost use Rattle.map_board.specs.Seats.{owed};

use crate::edits::{barrier, building, edit, edit_two, receiver, source};
use crate::one_course::{answer, take_job, work_once};
use map_board::{Board, Landed, Shown, Took};
use map_lock::{EditorSeat, MapLock, WorkerSeat};
use scene_book::Edit;
use scene_parts::{Name, PlainName};
use std::alloc::Global;
use std::sync::Wait;
use std::thread::Threads;

/// A house far from the way, between these in the east.
fn house(alloc: Global, west: i64, east: i64) -> Option<Edit> {
    let places = [
        (west, 200_000),
        (east, 200_000),
        (east, 210_000),
        (west, 210_000),
    ];
    let name = PlainName::from_vec(b"house".to_vec(alloc).ok()?);
    building(alloc, name, &places, 5000)
}

/// A shed beside the way, in the way of a string round the barrier.
fn shed(alloc: Global) -> Option<Edit> {
    let places = [
        (72_000, 3000),
        (78_000, 3000),
        (78_000, 9000),
        (72_000, 9000),
    ];
    let name = PlainName::from_vec(b"shed".to_vec(alloc).ok()?);
    building(alloc, name, &places, 6000)
}

/// A barrier across the way from the source to the receiver.
fn barrier_across(alloc: Global) -> Option<Edit> {
    barrier(alloc, [(50_000, -10_000), (50_000, 10_000)], 12_000)
}

fn without_house(alloc: Global) -> Option<Edit> {
    Some(Edit::Remove(Name::from_vec(b"house".to_vec(alloc).ok()?)))
}

// A source, a receiver and a house.
fn put_three<R: Threads + Wait + Sync>(
    rt: &R,
    alloc: Global,
    lock: &MapLock,
    editor: &mut EditorSeat,
) -> Option<()>
    requires own { editor.old.table ≡ lock.now }
    ensures own { editor.new.table ≡ lock.now }
    ensures parts { editor.new.parts ≡ editor.old.parts }
{
    edit_two(
        rt,
        alloc,
        lock,
        editor,
        source(alloc),
        receiver(alloc, 100_000),
    )?;
    edit(rt, alloc, lock, editor, house(alloc, 200_000, 210_000))
}

// Takes a job, which is solved and offered after the shed was put and the house removed.
fn work_late<R: Threads + Wait + Sync>(
    rt: &R,
    alloc: Global,
    lock: &MapLock,
    editor: &mut EditorSeat,
    worker: &mut WorkerSeat,
) -> Option<Landed>
    requires own { editor.old.table ≡ lock.now }
    requires own_worker { worker.old.table ≡ lock.now }
    requires free { owed worker.old.mine ≡ [] }
    ensures own { editor.new.table ≡ lock.now }
    ensures parts { editor.new.parts ≡ editor.old.parts }
    ensures own_worker { worker.new.table ≡ lock.now }
    ensures parts_of_worker { worker.new.parts ≡ worker.old.parts }
{
    let job = take_job(rt, lock, worker)?;
    let put = edit_two(rt, alloc, lock, editor, shed(alloc), without_house(alloc));
    let landed = answer(rt, alloc, lock, worker, job);
    put?;
    landed
}

// An answer of the first worker, and one of the second for version 5 that lands at version 7: whether both are kept.
fn land_late<R: Threads + Wait + Sync>(
    rt: &R,
    alloc: Global,
    lock: &MapLock,
    editor: &mut EditorSeat,
    first: &mut WorkerSeat,
    second: &mut WorkerSeat,
) -> Option<(bool, bool)>
    requires own { editor.old.table ≡ lock.now }
    requires own_first { first.old.table ≡ lock.now }
    requires own_second { second.old.table ≡ lock.now }
    requires free_first { owed first.old.mine ≡ [] }
    requires free_second { owed second.old.mine ≡ [] }
    ensures own { editor.new.table ≡ lock.now }
    ensures parts { editor.new.parts ≡ editor.old.parts }
    ensures own_first { first.new.table ≡ lock.now }
    ensures parts_of_first { first.new.parts ≡ first.old.parts }
    ensures own_second { second.new.table ≡ lock.now }
    ensures parts_of_second { second.new.parts ≡ second.old.parts }
{
    put_three(rt, alloc, lock, editor)?;
    let early = work_once(rt, alloc, lock, first)?;
    let moved = house(alloc, -300_000, -290_000);
    edit_two(rt, alloc, lock, editor, moved, barrier_across(alloc))?;
    let late = work_late(rt, alloc, lock, editor, second)?;
    Some((matches!(early, Landed::Kept), matches!(late, Landed::Kept)))
}

// A board on which an answer for version 5 landed at version 7: whether its two answers are kept, and what it shows then.
fn landed_late<R: Threads + Wait + Sync>(
    rt: &R,
    alloc: Global,
) -> Option<((bool, bool), StaleRow)> {
    let (lock, mut editor) = MapLock::start(alloc).ok()?;
    let mut first = lock.worker(rt, &mut editor);
    let mut second = lock.worker(rt, &mut editor);
    let kept = land_late(rt, alloc, &lock, &mut editor, &mut first, &mut second);
    lock.join_worker(&mut editor, first);
    lock.join_worker(&mut editor, second);
    let board = lock.close(editor);
    let row = stale_row(alloc, &board);
    Some((kept?, row))
}

/// Whether it is stale by edit 6 with the level of version 5, from 35.61 to 35.62 dB, rounded outwards.
fn is_stale_by_the_sixth(shown: &Shown) -> bool {
    let Shown::Stale {
        version: 5,
        by: 6,
        levels,
    } = shown
    else {
        return false;
    };
    let (Some(low), Some(high)) = (levels.total.low(), levels.total.high()) else {
        return false;
    };
    low >> 16 >= 3561 * 65_536 / 100 && high >> 16 <= 3562 * 65_536 / 100
}

/// Whether the first row is shown as stale by edit 6.
fn shows_stale(board: &Board) -> bool {
    board.rows() != 0 && is_stale_by_the_sixth(&board.shown(0))
}

/// Whether the first row of a look is stale by edit 6.
fn looks_stale(alloc: Global, board: &Board) -> Option<bool> {
    let look = board.look(alloc).ok()?;
    let row = look.rows.items().first()?;
    Some(is_stale_by_the_sixth(&row.shown))
}

/// The version of a board, its counts, and whether its first row is stale by edit 6: as it is shown, and in a look.
type StaleRow = (u64, [u64; 4], bool, Option<bool>);

fn stale_row(alloc: Global, board: &Board) -> StaleRow {
    (
        board.version(),
        board.counts(),
        shows_stale(board),
        looks_stale(alloc, board),
    )
}

#[test]
fn an_answer_that_lands_late_is_stale_by_the_first_later_edit(rt: HostRuntime) {
    let expected = ((true, true), (7, [2, 2, 0, 0], true, Some(true)));
    assert_eq!(rt; landed_late(&rt, rt.alloc()), Some(expected));
}

// Puts the source and the receiver, and takes a job, which is solved and offered after its receiver was put at another place.
// Whether the other worker finds one row out meanwhile, and the edit by which the answer is gone, if it is.
fn work_moved<R: Threads + Wait + Sync>(
    rt: &R,
    alloc: Global,
    lock: &MapLock,
    editor: &mut EditorSeat,
    worker: &mut WorkerSeat,
    other: &mut WorkerSeat,
) -> Option<(bool, Option<u64>)>
    requires own { editor.old.table ≡ lock.now }
    requires own_worker { worker.old.table ≡ lock.now }
    requires own_other { other.old.table ≡ lock.now }
    requires free { owed worker.old.mine ≡ [] }
    ensures own { editor.new.table ≡ lock.now }
    ensures parts { editor.new.parts ≡ editor.old.parts }
    ensures own_worker { worker.new.table ≡ lock.now }
    ensures parts_of_worker { worker.new.parts ≡ worker.old.parts }
    ensures own_other { other.new.table ≡ lock.now }
    ensures parts_of_other { other.new.parts ≡ other.old.parts }
{
    edit_two(
        rt,
        alloc,
        lock,
        editor,
        source(alloc),
        receiver(alloc, 100_000),
    )?;
    let job = take_job(rt, lock, worker)?;
    let is_out = finds_one_out(rt, lock, other);
    let moved = edit(rt, alloc, lock, editor, receiver(alloc, 120_000));
    let landed = answer(rt, alloc, lock, worker, job);
    moved?;
    Some((is_out, gone_by(landed?)))
}

// Whether a worker finds no job, since one row is out.
fn finds_one_out<R: Wait>(rt: &R, lock: &MapLock, worker: &mut WorkerSeat) -> bool
    requires own { worker.old.table ≡ lock.now }
    ensures own { worker.new.table ≡ lock.now }
    ensures parts { worker.new.parts ≡ worker.old.parts }
{
    matches!(lock.take(rt, worker), Took::Idle { taken: 1 })
}

/// The edit by which an answer is gone, if it is.
fn gone_by(landed: Landed) -> Option<u64> {
    match landed {
        Landed::Gone { by } => Some(by),
        _ => None,
    }
}

/// The version since which the first row is new, whether there is a job for it, and whether the board is finished then.
type NewRow = (Option<u64>, bool, bool);

fn new_row(board: &mut Board) -> NewRow {
    let since = new_since(board);
    let is_job = matches!(board.take(), Took::Job(_));
    board.finish();
    (since, is_job, matches!(board.take(), Took::Finished))
}

/// The version since which the first row is new, if it is.
fn new_since(board: &Board) -> Option<u64> {
    if board.rows() == 0 {
        return None;
    }
    match board.shown(0) {
        Shown::New { since } => Some(since),
        _ => None,
    }
}

// A board whose receiver was put at another place while its job was out.
fn moved_meanwhile<R: Threads + Wait + Sync>(
    rt: &R,
    alloc: Global,
) -> Option<((bool, Option<u64>), NewRow)> {
    let (lock, mut editor) = MapLock::start(alloc).ok()?;
    let mut first = lock.worker(rt, &mut editor);
    let mut second = lock.worker(rt, &mut editor);
    let moved = work_moved(rt, alloc, &lock, &mut editor, &mut first, &mut second);
    lock.join_worker(&mut editor, first);
    lock.join_worker(&mut editor, second);
    let mut board = lock.close(editor);
    let row = new_row(&mut board);
    Some((moved?, row))
}

#[test]
fn an_answer_for_a_receiver_that_was_moved_is_gone(rt: HostRuntime) {
    let expected = ((true, Some(3)), (Some(3), true, true));
    assert_eq!(rt; moved_meanwhile(&rt, rt.alloc()), Some(expected));
}
