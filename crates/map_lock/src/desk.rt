//! The lock as the workers' desk.
ghost use Rattle.std.specs.Prelude.{◌≡◌};
ghost use Rattle.map_lock.specs.Working.{taken_of};

use crate::lock::MapLock;
use crate::seats::WorkerSeat;
use crate::solving::solve;
use map_board::{Answer, Job, Took};
use receiver_workers::{Desk, Taken};
use std::sync::Wait;

/// A job that could not be solved for want of memory. Nothing but a solve at this desk makes one.
#[derive(Drop)]
pub struct Unsolved {
    job: Job,
}

impl Desk for MapLock {
    ghost use Rattle.std.specs.Prelude.{◌≡◌};
    ghost use Rattle.map_board.specs.Seats.{owed};
    ghost use Rattle.map_board.specs.Jobs.{Answers};
    ghost use Rattle.map_lock.specs.Working.{last_call, give_backs, Follows};

    type Seat = WorkerSeat;

    type Job = Job;

    type Answer = Answer;

    type Back = Unsolved;

    ghost fits = { λ lock seat. seat.table ≡ lock };

    ghost owed = { λ seat. owed seat.mine };

    ghost backs = { λ seat. give_backs seat.mine };

    ghost last = { λ seat. last_call seat.mine };

    ghost of = { λ back. back.job };

    ghost answers = { Answers };

    ghost follows = { Follows };

    fn take<R: Wait>(&self, rt: &R, seat: &mut WorkerSeat) -> Taken<Job> {
        let place = self.reserve.wait(rt, seat.place);
        let heard = self.jobs.lull(rt, seat.heard);
        let took = self.take_or_sleep(rt, &mut seat.seat, heard);
        seat.place = Some(place);
        seat.heard = heard;
        taken(took)
    }

    fn solve(&self, job: Job) -> Result<Answer, Unsolved> {
        match solve(self.alloc, job) {
            Ok(answer) => Ok(answer),
            Err(job) => Err(Unsolved { job }),
        }
    }

    fn offer<R: Wait>(&self, rt: &R, seat: &mut WorkerSeat, answer: Answer) {
        self.ask_offer(rt, &mut seat.seat, answer);
    }

    fn give_back<R: Wait>(&self, rt: &R, seat: &mut WorkerSeat, back: Unsolved) {
        self.ask_give_back(rt, &mut seat.seat, back.job);
        self.reserve.call_one();
    }

    fn place(&self, job: &Job) -> u32 {
        job.place()
    }

    fn wait<R: Wait>(&self, _rt: &R) {
        // A take that answers `Idle` has slept.
    }

    ghost use Rattle.map_lock.specs.Following.{follows-itself, follows-through};

    ghost follows_itself = { follows-itself };

    ghost follows_through = { follows-through };
}

// What a worker is told of a take.
fn taken(took: Took) -> Taken<Job>
    ensures { result ≡ taken_of took }
{
    match took {
        Took::Job(job) => Taken::Job(job),
        Took::Idle { taken: _ } => Taken::Idle,
        Took::Finished => Taken::Finished,
    }
}
