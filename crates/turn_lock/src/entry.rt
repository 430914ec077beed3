//! Entries of a history. No value of these types is made: they are the words of contracts.
use std::collections::LinkedList;

/// One call of a machine: the number of the seat that made it, the call and the reply.
pub struct Entry<C, R> {
    /// The number of the seat that made the call.
    pub number: u64,
    /// What was asked.
    pub call: C,
    /// What the machine answered.
    pub reply: R,
}

/// A seat that was joined into another: its number, and the calls that it had made.
pub struct Joined<C, R> {
    /// The number of the seat that was joined.
    pub number: u64,
    /// Its own entries, in their order.
    pub mine: LinkedList<Entry<C, R>>,
}
