//! The legs of a reflection.

/// A leg of a path by way of a wall: the first leads from the source to the wall, the second from the receiver.
#[derive(Clone, Copy, Debug, PartialEq, Eq)]
pub enum Leg {
    First,
    Second,
}
