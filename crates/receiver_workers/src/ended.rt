//! Why a worker ended.

/// Why a worker ended.
#[derive(Clone, Copy, Debug, PartialEq, Eq)]
pub enum Ended {
    /// The desk was finished.
    Stopped,
    /// A job could not be solved for want of memory, and was given back.
    NoMemory,
}
