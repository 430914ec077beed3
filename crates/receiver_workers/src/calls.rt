//! The calls that a seat makes at a desk.

/// What a take answers.
#[derive(Debug, Drop)]
pub enum Taken<J> {
    /// A job, which the seat then owes.
    Job(J),
    /// There is no job now, and there may be one later.
    Idle,
    /// There will be no more jobs.
    Finished,
}

/// A call of a seat with what it answered. Contracts speak of it; a desk need not keep one.
#[derive(Debug, Drop)]
pub enum SeatCall<J, A> {
    /// A take, with what it answered.
    Take(Taken<J>),
    /// An offer of this answer.
    Offer(A),
    /// The give-back of this job.
    GiveBack(J),
}
