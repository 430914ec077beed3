//! What the board says of a row, and of an answer that lands.
use path_calc::Levels;

/// What is shown of a receiver.
#[derive(Drop)]
pub enum Shown {
    /// The levels in the newest scene.
    Current(Levels),
    /// The levels in the scene of a version, and the first edit after it that touches the receiver.
    Stale {
        version: u64,
        by: u64,
        levels: Levels,
    },
    /// No answer was kept since this edit put the receiver.
    New {
        since: u64,
    },
}

/// What became of an answer.
#[derive(Debug, Drop)]
pub enum Landed {
    /// The row holds its levels.
    Kept,
    /// This edit, the first after the answer's version to do so, put the receiver anew or removed it.
    Gone { by: u64 },
}
