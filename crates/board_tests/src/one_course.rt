//! One course on a shared board: an editor, a worker and a looker in one thread, with ample memory.
ghost use Rattle.std.specs.Prelude.{◌≡◌, [], ◌∷◌, IsSome, IfSome};
ghost use Rattle.map_board.specs.Seats.{owed};

use crate::edits::{edit_two, receiver, source};
use crate::solving::solve;
use map_board::{Job, Landed, Shown, Took};
use map_lock::{EditorSeat, LookSeat, MapLock, WorkerSeat};
use std::alloc::Global;
use std::sync::Wait;
use std::test::Fail;
use std::thread::Threads;

// Takes a job, which the seat alone owes then.
pub(crate) fn take_job<R: Wait>(rt: &R, lock: &MapLock, worker: &mut WorkerSeat) -> Option<Job>
    requires own { worker.old.table ≡ lock.now }
    requires free { owed worker.old.mine ≡ [] }
    ensures own { worker.new.table ≡ lock.now }
    ensures parts { worker.new.parts ≡ worker.old.parts }
    ensures owed { IfSome result (λ job. owed worker.new.mine ≡ job ∷ []) }
{
    match lock.take(rt, worker) {
        Took::Job(job) => Some(job),
        _ => None,
    }
}

// Takes a job and gives it back.
pub(crate) fn give_up<R: Wait>(rt: &R, lock: &MapLock, worker: &mut WorkerSeat) -> Option<()>
    requires own { worker.old.table ≡ lock.now }
    requires free { owed worker.old.mine ≡ [] }
    ensures own { worker.new.table ≡ lock.now }
    ensures parts { worker.new.parts ≡ worker.old.parts }
    ensures free { IsSome result → owed worker.new.mine ≡ [] }
{
    let job = take_job(rt, lock, worker)?;
    lock.give_back(rt, worker, job);
    Some(())
}

// Solves the job that the seat alone owes, and offers the answer.
pub(crate) fn answer<R: Wait>(
    rt: &R,
    alloc: Global,
    lock: &MapLock,
    worker: &mut WorkerSeat,
    job: Job,
) -> Option<Landed>
    requires own { worker.old.table ≡ lock.now }
    requires owed { owed worker.old.mine ≡ job ∷ [] }
    ensures own { worker.new.table ≡ lock.now }
    ensures parts { worker.new.parts ≡ worker.old.parts }
{
    match solve(alloc, job) {
        Ok(answer) => Some(lock.offer(rt, worker, answer)),
        Err(_) => None,
    }
}

// Takes a job, solves it and offers the answer.
pub(crate) fn work_once<R: Wait>(
    rt: &R,
    alloc: Global,
    lock: &MapLock,
    worker: &mut WorkerSeat,
) -> Option<Landed>
    requires own { worker.old.table ≡ lock.now }
    requires free { owed worker.old.mine ≡ [] }
    ensures own { worker.new.table ≡ lock.now }
    ensures parts { worker.new.parts ≡ worker.old.parts }
{
    let job = take_job(rt, lock, worker)?;
    answer(rt, alloc, lock, worker, job)
}

// A look at one row, which is current.
fn sees_one_current<R: Wait>(rt: &R, alloc: Global, lock: &MapLock, looker: &mut LookSeat) -> bool
    requires own { looker.old.table ≡ lock.now }
    ensures own { looker.new.table ≡ lock.now }
    ensures parts { looker.new.parts ≡ looker.old.parts }
{
    match lock.look(rt, alloc, looker) {
        Ok(look) => match look.rows.items() {
            [row] => matches!(row.shown, Shown::Current(_)),
            _ => false,
        },
        Err(_) => false,
    }
}

// The two edits, a job that is given back, and one that is answered: what became of the answer.
fn edit_and_work<R: Threads + Wait + Sync>(
    rt: &R,
    alloc: Global,
    lock: &MapLock,
    editor: &mut EditorSeat,
    worker: &mut WorkerSeat,
) -> Option<Landed>
    requires own { editor.old.table ≡ lock.now }
    requires own_worker { worker.old.table ≡ lock.now }
    requires free { owed worker.old.mine ≡ [] }
    ensures own { editor.new.table ≡ lock.now }
    ensures parts { editor.new.parts ≡ editor.old.parts }
    ensures own_worker { worker.new.table ≡ lock.now }
    ensures parts_of_worker { worker.new.parts ≡ worker.old.parts }
{
    edit_two(
        rt,
        alloc,
        lock,
        editor,
        source(alloc),
        receiver(alloc, 100_000),
    )?;
    give_up(rt, lock, worker)?;
    work_once(rt, alloc, lock, worker)
}

// What became of the answer, whether the look shows the receiver as current, and the version of the board that is closed.
fn course<R: Threads + Wait + Sync>(rt: &R, alloc: Global) -> Option<(Landed, bool, u64)> {
    let (lock, mut editor) = MapLock::start(alloc).ok()?;
    let mut worker = lock.worker(rt, &mut editor);
    let landed = edit_and_work(rt, alloc, &lock, &mut editor, &mut worker);
    let mut looker = lock.looker(rt, &mut editor);
    let current = sees_one_current(rt, alloc, &lock, &mut looker);
    lock.join_worker(&mut editor, worker);
    lock.join_looker(&mut editor, looker);
    let version = lock.close(editor).version();
    Some((landed?, current, version))
}

#[test]
fn a_worker_and_a_looker_share_a_board(rt: HostRuntime) -> Result<(), Fail> {
    let (landed, current, version) = course(&rt, rt.alloc()).ok_or("there is memory")?;
    assert!(rt; matches!(landed, Landed::Kept));
    assert_eq!(rt; (current, version), (true, 2));
    Ok(())
}
