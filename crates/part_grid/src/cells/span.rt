//! Neighbouring columns or rows of cells.

/// The columns or rows from `low` to `high`, both included: none where `low` is above `high`.
#[derive(Clone, Copy, Debug, PartialEq, Eq)]
pub struct Span {
    pub low: usize,
    pub high: usize,
}

impl Span {
    ghost use Rattle.std.specs.Prelude.{◌≡◌, ◌<◌, ◌^◌};
    ghost use Rattle.part_grid.specs.Span.{between, common, overlap, width};

    /// From one line to another, in either order.
    pub fn between(a: usize, b: usize) -> Self
        ensures { result ≡ between a b }
    {
        Span {
            low: a.min(b),
            high: a.max(b),
        }
    }

    /// The lines of both spans.
    pub fn common(self, other: Span) -> Self
        ensures { result ≡ common self other }
    {
        Span {
            low: self.low.max(other.low),
            high: self.high.min(other.high),
        }
    }

    /// Whether two spans share a line.
    pub fn overlaps(self, other: Span) -> bool
        ensures { result ≡ overlap self other }
    {
        self.low <= other.high && other.low <= self.high
    }

    /// The number of lines.
    pub fn width(self) -> usize
        requires { self.high < 2 ^ 32 }
        ensures { result ≡ width self }
    {
        (self.high + 1).saturating_sub(self.low)
    }
}
