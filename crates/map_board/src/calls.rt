//! The calls of a board and their replies, as values: what a history of a shared board is made of.
use crate::answers::Landed;
use crate::jobs::{Answer, Job};
use crate::looks::LookAll;
use scene_book::{Edit, EditFault};
use scene_parts::NoMemory;

/// What a take answers.
#[derive(Drop)]
pub enum Took {
    /// A job for a row that is neither current nor out.
    Job(Job),
    /// There is no such row; so many rows are out.
    Idle { taken: u32 },
    /// The board is finished.
    Finished,
}

/// A call of the board.
#[derive(Drop)]
pub enum BoardCall {
    Edit(Edit),
    Take,
    Finish,
    Offer(Answer),
    GiveBack(Job),
    Look,
}

/// A reply of the board.
#[derive(Drop)]
pub enum BoardReply {
    Edited(Result<u64, EditFault>),
    Took(Took),
    Done,
    Landed(Landed),
    Looked(Result<LookAll, NoMemory>),
}
