//! The answer of a comparison of two intervals.

/// Whether a comparison holds of two quantities of which only the intervals are known.
#[derive(Clone, Copy, Drop, PartialEq, Eq, Debug)]
pub enum Truth {
    /// It holds, whatever values of the intervals the quantities have.
    Sure,
    /// It holds for no values of the intervals.
    Never,
    /// The intervals don't decide it.
    Unsure,
}
