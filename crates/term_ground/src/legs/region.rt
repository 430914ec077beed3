//! The regions of ground below a path.

/// A region of ground below a path (ISO 9613-2, 7.3.1).
#[derive(Clone, Copy, Debug, Drop, PartialEq, Eq)]
pub enum Region {
    /// From the source 30 times its height towards the receiver, at most up to the receiver.
    Source,
    /// Between the other two, where they leave something.
    Middle,
    /// From the receiver 30 times its height towards the source, at most up to the source.
    Receiver,
}
