//! The editor settles the board.
ghost use Rattle.std.specs.Prelude.{◌≡◌, [], ◌∷◌, MatchResult};
ghost use Rattle.map_board.specs.Seats.{owed};
ghost use Rattle.map_lock.specs.Seats.{IsSeat, IsEditor};
ghost use Rattle.map_lock.specs.Settling.{HasNotFinished, HasSettled, HasWorkedQuietly, HasWorkedUnseen};

use crate::lock::MapLock;
use crate::machine::SharedBoard;
use crate::seats::{EditorSeat, counts_of};
use crate::solving::solve;
use map_board::{Job, LookAll, Took};
use map_io::Gate;
use scene_parts::NoMemory;
use std::alloc::Global;
use std::sync::Wait;
use turn_lock::Seat;

// The editor's number at a gate.
const EDITOR: u32 = 0;

impl MapLock {
    /// Takes jobs, solves them and offers the answers until no row is needy or out, and looks at the board then: it waits
    /// for jobs that others took. With each job the gate is passed, with the editor's number 0 and the receiver's place in
    /// the job's scene. Where there is no memory for a job, it is given back, and nothing more is tried.
    pub fn settle<R: Wait, G: Gate>(
        &self,
        rt: &R,
        alloc: Global,
        seat: &mut EditorSeat,
        gate: &G,
    ) -> Result<LookAll, NoMemory>
        requires own { seat.old.table ≡ self.now }
        requires unfinished { HasNotFinished seat.old.mine }
        ensures settled { HasSettled seat.old result seat.new }
        ensures sound { IsEditor seat.new }
    {
        let settled = self.settle_by(rt, alloc, &mut seat.seat, gate);
        seat.counts = counts_of(&settled, seat.counts);
        settled
    }

    fn settle_by<R: Wait, G: Gate>(
        &self,
        rt: &R,
        alloc: Global,
        seat: &mut Seat<SharedBoard>,
        gate: &G,
    ) -> Result<LookAll, NoMemory>
        requires own { seat.old.table ≡ self.now }
        requires editor { IsEditor seat.old }
        requires unfinished { HasNotFinished seat.old.mine }
        ensures settled { HasSettled seat.old result seat.new }
        ensures sound { IsSeat seat.new }
    {
        for _ in rt.forever() {
            let heard = self.answers.heard();
            match self.ask_take(rt, seat) {
                Took::Job(job) => self.work_off(rt, alloc, seat, gate, job)?,
                Took::Idle { taken: 0 } => return self.ask_look(rt, alloc, seat),
                Took::Idle { taken: _ } => self.answers.sleep(rt, heard),
                Took::Finished => unreachable!(),
            }
        }
        unreachable!()
    }

    // Solves the only job that is owed, and offers the answer; or gives the job back.
    fn work_off<R: Wait, G: Gate>(
        &self,
        rt: &R,
        alloc: Global,
        seat: &mut Seat<SharedBoard>,
        gate: &G,
        job: Job,
    ) -> Result<(), NoMemory>
        requires own { seat.old.table ≡ self.now }
        requires owed { owed seat.old.mine ≡ job ∷ [] }
        ensures worked { MatchResult result
            (λ _. HasWorkedQuietly seat.old seat.new) (λ _. HasWorkedUnseen seat.old seat.new) }
        ensures sound { IsSeat seat.new }
    {
        gate.pass(EDITOR, job.place());
        match solve(alloc, job) {
            Ok(answer) => {
                self.ask_offer(rt, seat, answer);
                Ok(())
            }
            Err(job) => {
                self.ask_give_back(rt, seat, job);
                Err(NoMemory)
            }
        }
    }
}
