//! Two courses of a shared board in one thread, with ample memory: jobs that are given back.
ghost use Rattle.std.specs.Prelude.{◌≡◌, []};
ghost use Rattle.map_board.specs.Seats.{owed};

use crate::edits::{edit_two, receiver, source};
use crate::one_course::{give_up, take_job};
use map_board::{Board, Took};
use map_lock::{EditorSeat, MapLock, WorkerSeat};
use scene_book::Edit;
use scene_parts::Name;
use std::alloc::Global;
use std::sync::Wait;
use std::thread::Threads;

/// Whether a board is settled, whether there is a job then, and its counts behind that.
fn taken_again(board: &mut Board) -> (bool, bool, [u64; 4]) {
    let settled = board.settled();
    let is_job = matches!(board.take(), Took::Job(_));
    (settled, is_job, board.counts())
}

// What is taken again of a board of one receiver, whose job was taken and given back.
fn given_back<R: Threads + Wait + Sync>(rt: &R, alloc: Global) -> Option<(bool, bool, [u64; 4])> {
    let (lock, mut editor) = MapLock::start(alloc).ok()?;
    let mut worker = lock.worker(rt, &mut editor);
    let put = edit_two(
        rt,
        alloc,
        &lock,
        &mut editor,
        source(alloc),
        receiver(alloc, 100_000),
    );
    let gave = give_up(rt, &lock, &mut worker);
    lock.join_worker(&mut editor, worker);
    let mut board = lock.close(editor);
    let seen = taken_again(&mut board);
    put?;
    gave.map(|_: ()| seen)
}

#[test]
fn a_job_that_was_given_back_is_taken_again(rt: HostRuntime) {
    assert_eq!(rt;
        given_back(&rt, rt.alloc()),
        Some((false, true, [2, 0, 0, 1]))
    );
}

fn without_receiver(alloc: Global) -> Option<Edit> {
    Some(Edit::Remove(Name::from_vec(b"r".to_vec(alloc).ok()?)))
}

// The version and the counts that the editor sees, and how many rows.
fn seen_by_the_editor<R: Wait>(
    rt: &R,
    alloc: Global,
    lock: &MapLock,
    editor: &mut EditorSeat,
) -> Option<(u64, [u64; 4], usize)>
    requires own { editor.old.table ≡ lock.now }
    ensures own { editor.new.table ≡ lock.now }
    ensures parts { editor.new.parts ≡ editor.old.parts }
{
    match lock.look_as_editor(rt, alloc, editor) {
        Ok(look) => Some((look.version, look.counts, look.rows.items().len())),
        Err(_) => None,
    }
}

// Puts the source and the receiver, and takes a job, which is given back after its receiver was removed; what the editor sees
// in between.
fn give_back_late<R: Threads + Wait + Sync>(
    rt: &R,
    alloc: Global,
    lock: &MapLock,
    editor: &mut EditorSeat,
    worker: &mut WorkerSeat,
) -> Option<(u64, [u64; 4], usize)>
    requires own { editor.old.table ≡ lock.now }
    requires own_worker { worker.old.table ≡ lock.now }
    requires free { owed worker.old.mine ≡ [] }
    ensures own { editor.new.table ≡ lock.now }
    ensures parts { editor.new.parts ≡ editor.old.parts }
    ensures own_worker { worker.new.table ≡ lock.now }
    ensures parts_of_worker { worker.new.parts ≡ worker.old.parts }
{
    edit_two(
        rt,
        alloc,
        lock,
        editor,
        source(alloc),
        receiver(alloc, 100_000),
    )?;
    let gone = without_receiver(alloc)?;
    let job = take_job(rt, lock, worker)?;
    let is_gone = lock.edit(rt, alloc, editor, gone).is_ok();
    let look = seen_by_the_editor(rt, alloc, lock, editor);
    lock.give_back(rt, worker, job);
    if is_gone { look } else { None }
}

/// What a board without rows is: its version, its counts, how many rows it has, and whether it is settled and idle.
type Emptied = (u64, [u64; 4], u32, bool, bool);

fn emptied(board: &mut Board) -> Emptied {
    let version = board.version();
    let counts = board.counts();
    let rows = board.rows();
    let settled = board.settled();
    let idle = matches!(board.take(), Took::Idle { taken: 0 });
    (version, counts, rows, settled, idle)
}

// A board whose receiver was removed while its job was out, and a look before the job was given back.
fn removed_meanwhile<R: Threads + Wait + Sync>(
    rt: &R,
    alloc: Global,
) -> Option<((u64, [u64; 4], usize), Emptied)> {
    let (lock, mut editor) = MapLock::start(alloc).ok()?;
    let mut worker = lock.worker(rt, &mut editor);
    let look = give_back_late(rt, alloc, &lock, &mut editor, &mut worker);
    lock.join_worker(&mut editor, worker);
    let mut board = lock.close(editor);
    let seen = emptied(&mut board);
    Some((look?, seen))
}

#[test]
fn a_job_of_a_removed_receiver_changes_the_counts_alone(rt: HostRuntime) {
    let expected = ((3, [1, 0, 0, 0], 0), (3, [1, 0, 0, 1], 0, true, true));
    assert_eq!(rt; removed_meanwhile(&rt, rt.alloc()), Some(expected));
}
