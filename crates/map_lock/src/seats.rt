//! The seats of a shared board.
ghost use Rattle.std.specs.Prelude.{◌≡◌};
ghost use Rattle.map_lock.specs.Seats.{IsSeat, IsEditor, counts_after, counts_seen};

use crate::machine::SharedBoard;
use map_board::{BoardReply, LookAll};
use scene_parts::NoMemory;
use std::marker::Model;
use turn_lock::Seat;

/// The editor's seat, which is the first of its lock. It alone may edit and finish the board, and it owes no job between
/// two calls. Contracts see it as the lock's seats are seen: the `table` that it belongs to, its `number`, the history that it
/// has `seen`, `mine`, its own entries, its `parts` of 2^64 of the right to know the whole, and the seats that were
/// `joined` into it, each as its number beside its entries.
#[derive(Drop)]
pub struct EditorSeat {
    pub(crate) seat: Seat<SharedBoard>,
    pub(crate) counts: [u64; 4],
}

impl Model for EditorSeat {
    ghost use Rattle.std.specs.Prelude.{◌≡◌};
    ghost use Rattle.map_lock.specs.Seats.{BoardSeat, IsEditor, counts_seen};

    ghost Value = { BoardSeat };

    ghost view = { λ s. s.seat };

    ghost invariant = { λ s. IsEditor s.seat × (s.counts ≡ counts_seen s.seat.mine) };
}

impl EditorSeat {
    /// The four counts in the last look of this seat that was answered, and four zeros before the first: jobs taken,
    /// answers kept, answers gone, and jobs given back.
    pub fn counts(&self) -> [u64; 4]
        ensures { result ≡ counts_seen self.now.mine }
    {
        self.counts
    }

    /// Nothing is done. Every editor's seat is sound, wherever it comes from, so that what holds one need not say so.
    pub fn stays_sound(&self)
        ensures { IsEditor self.now }
    {
        let _ = &self.seat;
    }
}

/// The counts that a look shows, where it was answered, and else those before it.
pub(crate) fn counts_of(look: &Result<LookAll, NoMemory>, before: [u64; 4]) -> [u64; 4]
    ensures { result ≡ counts_after before (BoardReply.Looked look.now) }
{
    match look {
        Ok(look) => look.counts,
        Err(NoMemory) => before,
    }
}

/// A worker's seat, seen as the editor's is.
#[derive(Drop)]
pub struct WorkerSeat {
    pub(crate) seat: Seat<SharedBoard>,
    /// How many workers of its lock came before it, once it has come.
    pub(crate) place: Option<u64>,
    /// How often it has heard the bell of jobs.
    pub(crate) heard: u64,
}

impl Model for WorkerSeat {
    ghost use Rattle.map_lock.specs.Seats.{BoardSeat, IsSeat};

    ghost Value = { BoardSeat };

    ghost view = { λ s. s.seat };

    ghost invariant = { λ s. IsSeat s.seat };
}

impl WorkerSeat {
    /// Nothing is done. Every worker's seat is sound, wherever it comes from.
    pub fn stays_sound(&self)
        ensures { IsSeat self.now }
    {
        let _ = &self.seat;
    }
}

/// The seat of one who looks at the board, seen as the editor's is.
#[derive(Drop)]
pub struct LookSeat {
    pub(crate) seat: Seat<SharedBoard>,
}

impl Model for LookSeat {
    ghost use Rattle.map_lock.specs.Seats.{BoardSeat, IsSeat};

    ghost Value = { BoardSeat };

    ghost view = { λ s. s.seat };

    ghost invariant = { λ s. IsSeat s.seat };
}

impl LookSeat {
    /// Nothing is done. Every looker's seat is sound, wherever it comes from.
    pub fn stays_sound(&self)
        ensures { IsSeat self.now }
    {
        let _ = &self.seat;
    }
}
