//! Where workers take their jobs.
use crate::calls::{SeatCall, Taken};
use std::sync::Wait;

/// Where jobs are taken, and where answers are offered.
///
/// A worker calls through a seat of its own. The meanings of a desk are for contracts: which seats
/// are its own (`fits`); of a seat the jobs that it owes, in the order of their takes (`owed`), the
/// number of its give-backs (`backs`) and its last call with the answer, if it has made one
/// (`last`); the job that a `Back` holds (`of`); which answers answer a job (`answers`); and what a
/// seat may become by its own calls (`follows`, of the seat before and the seat after), be they
/// none or many.
pub trait Desk {
    ghost use Rattle.std.specs.Prelude.{◌≡◌, ◌+◌, ℕ, List, ◌++◌, Option, Some, Contains};
    ghost use Rattle.std.specs.Prelude.{MatchResult};
    ghost use Rattle.std.specs.List.{Any};
    ghost use Rattle.receiver_workers.specs.declared.calls.SeatCall.{SeatCall};
    ghost use Rattle.receiver_workers.specs.Owing.{job_in, LosesLast};

    /// What a worker calls through.
    type Seat;

    /// What is to be solved.
    type Job;

    /// A job that is solved.
    type Answer;

    /// A job that could not be solved for want of memory. Nothing but `solve` makes one.
    type Back;

    // The seat is of this desk.
    ghost fits: { Self → Self.Seat → Type 0 };

    // The jobs that the seat owes, in the order of their takes.
    ghost owed: { Self.Seat → List Self.Job };

    // How often the seat has given a job back.
    ghost backs: { Self.Seat → ℕ };

    // The seat's last call with its answer.
    ghost last: { Self.Seat → Option (SeatCall Self.Job Self.Answer) };

    // The job that could not be solved.
    ghost of: { Self.Back → Self.Job };

    // The answer is one of the job.
    ghost answers: { Self.Job → Self.Answer → Type 0 };

    // The seat before may have become the seat after by its own calls.
    ghost follows: { Self.Seat → Self.Seat → Type 0 };

    /// Takes a job, if there is one, and owes it from then on. It may wait before it answers `Idle`.
    fn take<R: Wait>(&self, rt: &R, seat: &mut Self::Seat) -> Taken<Self::Job>
        requires { fits self.now seat.old }
        ensures fits { fits self.now seat.new }
        ensures follows { follows seat.old seat.new }
        ensures last { last seat.new ≡ Some (SeatCall.Take result) }
        ensures owed { owed seat.new ≡ owed seat.old ++ job_in result }
        ensures backs { backs seat.new ≡ backs seat.old };

    /// Solves the job, or hands it back for want of memory.
    fn solve(&self, job: Self::Job) -> Result<Self::Answer, Self::Back>
        ensures { MatchResult result (λ answer. answers job answer) (λ back. of back ≡ job) };

    /// Offers the answer of a job that the seat owes. Of the jobs that it answers, the one that was
    /// taken last is owed no longer.
    fn offer<R: Wait>(&self, rt: &R, seat: &mut Self::Seat, answer: Self::Answer)
        requires fits { fits self.now seat.old }
        requires owed { Any (λ job. answers job answer) (owed seat.old) }
        ensures fits { fits self.now seat.new }
        ensures follows { follows seat.old seat.new }
        ensures last { last seat.new ≡ Some (SeatCall.Offer answer) }
        ensures owed { LosesLast (λ job. answers job answer) (owed seat.old) (owed seat.new) }
        ensures backs { backs seat.new ≡ backs seat.old };

    /// Gives back a job that the seat owes. It is owed no longer; where it is owed twice, once less.
    fn give_back<R: Wait>(&self, rt: &R, seat: &mut Self::Seat, back: Self::Back)
        requires fits { fits self.now seat.old }
        requires owed { Contains (owed seat.old) (of back) }
        ensures fits { fits self.now seat.new }
        ensures follows { follows seat.old seat.new }
        ensures last { last seat.new ≡ Some (SeatCall.GiveBack (of back)) }
        ensures owed { LosesLast (λ job. job ≡ of back) (owed seat.old) (owed seat.new) }
        ensures backs { backs seat.new ≡ backs seat.old + 1 };

    /// The receiver's place in the job's scene.
    fn place(&self, job: &Self::Job) -> u32;

    /// Waits a while. It is called after an idle take alone, and changes nothing that a contract
    /// speaks of. It may do nothing where a take waits itself before it answers `Idle`: where neither
    /// waits, idle workers queue before the others without end.
    fn wait<R: Wait>(&self, rt: &R);

    ghost follows_itself: { (seat : Self.Seat) → follows seat seat };

    ghost follows_through: { (first second third : Self.Seat)
        → follows first second → follows second third → follows first third };
}
