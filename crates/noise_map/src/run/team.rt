//! The board of a run, its editor and its workers: how they come together, and how the workers' seats come back.
ghost use Rattle.std.specs.Prelude.{◌≡◌, ◌≤◌, IfOk, OnOk, All, length};
ghost use Rattle.map_lock.specs.Seats.{IsEditor};
ghost use Rattle.noise_map.specs.inner.Teams.{IsGathered, IsGathering, IsBack, HasJoinedAll};

use map_lock::{EditorSeat, MapLock, WorkerSeat};
use scene_parts::NoMemory;
use std::alloc::Global;
use std::sync::Wait;
use std::thread::{self, Threads};

/// A new board with its editor and so many workers, of whom none has done anything yet.
#[derive(Drop)]
pub struct Team {
    pub lock: MapLock,
    pub editor: EditorSeat,
    pub workers: Vec<WorkerSeat>,
}

impl Team {
    /// A team of so many workers, of whom there are 16 at most. They take jobs on as many processors as there are.
    pub fn gather<R: Threads + Wait>(rt: &R, alloc: Global, count: u8) -> Result<Team, NoMemory>
        requires { count ≤ 16 }
        ensures { IfOk result (IsGathered count) }
    {
        let (lock, mut editor) = MapLock::start_with_reserve(alloc, at_work(rt))?;
        let mut workers = Vec::new(alloc);
        gather_workers(rt, &lock, count, &mut editor, &mut workers)?;
        Ok(Team {
            lock,
            editor,
            workers,
        })
    }
}

/// How many workers take jobs at a time: as many as there are processors beside the editor's, and two at least, so that
/// one that is held at its gate doesn't hold up all. Where the processors can't be counted, all do.
fn at_work<R: Threads>(rt: &R) -> u32 {
    match thread::available_parallelism(rt) {
        Ok(processors) => {
            let beside = processors.get().saturating_sub(1);
            u32::try_from(beside).unwrap_or(u32::MAX).max(2)
        }
        Err(_) => u32::MAX,
    }
}

/// Splits the seats of so many workers off the editor's, those that have come among them.
fn gather_workers<R: Wait>(
    rt: &R,
    lock: &MapLock,
    count: u8,
    editor: &mut EditorSeat,
    workers: &mut Vec<WorkerSeat>,
) -> Result<(), NoMemory>
    requires most { count ≤ 16 }
    requires begins { IsGathering lock.now count editor.old workers.old.items }
    ensures come { OnOk result (IsGathering lock.now count editor.new workers.new.items) }
    ensures all { OnOk result (length workers.new.items ≡ count) }
{
    while workers.len() < usize::from(count) {
        let worker = lock.worker(rt, editor);
        workers.push(worker)?;
    }
    Ok(())
}

/// Takes the seats of all workers, who have ended, into the editor's.
pub fn join_all(lock: &MapLock, editor: &mut EditorSeat, mut workers: Vec<WorkerSeat>)
    requires own { editor.old.table ≡ lock.now }
    requires sound { IsEditor editor.old }
    requires theirs { All (IsBack lock.now) workers.items }
    ensures { HasJoinedAll lock.now editor.old (length workers.items) editor.new }
{
    while let Some(worker) = workers.pop() {
        lock.join_worker(editor, worker);
    }
}
