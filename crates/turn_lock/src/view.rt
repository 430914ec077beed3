//! What the proofs know of a seat. No value of these types is made.
use crate::entry::{Entry, Joined};
use std::collections::LinkedList;

/// Where a seat stands in the queue.
pub enum Phase {
    Free,
    /// It drew this ticket.
    Waiting(u64),
    /// It has this ticket, which is served, and it has the machine.
    InTurn(u64),
}

/// What a seat knows, and what it has done.
pub struct View<C, R> {
    /// None until it drew a number, and again once it was joined into another.
    pub name: Option<u64>,
    pub seen: LinkedList<Entry<C, R>>,
    pub mine: LinkedList<Entry<C, R>>,
    /// Up to 2^64: of the right to know the whole history.
    pub parts: u64,
    pub joined: LinkedList<Joined<C, R>>,
    /// All numbers that it knows are below this.
    pub bound: u64,
    /// At a join, the shorter of the two lists, which `seen` begins with.
    pub beside: LinkedList<Entry<C, R>>,
    pub phase: Phase,
}
