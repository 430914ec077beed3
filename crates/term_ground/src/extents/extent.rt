//! A quantity whose ends are kept in 64 bits.

ghost use Rattle.std.specs.Prelude.{◌<◌, ◌^◌, ◌≤ℤ◌, pos, unsigned_abs};

/// A quantity by its ends in units of 2^-32, each strictly between -2^62 and 2^62.
#[derive(Clone, Copy, Drop)]
pub(crate) struct Extent {
    pub lo: i64,
    pub hi: i64,
    pub ghost low_end: { unsigned_abs lo < 2 ^ 62 },
    pub ghost high_end: { unsigned_abs hi < 2 ^ 62 },
    pub ghost ordered: { lo ≤ℤ hi },
}

/// A quantity of each region of a path, in 64 bits.
#[derive(Clone, Copy, Drop)]
pub(crate) struct Extents {
    pub source: Extent,
    pub middle: Extent,
    pub receiver: Extent,
}

/// A stretch of a path by its ends in 64 bits. It doesn't begin before the path or end behind it.
#[derive(Clone, Copy, Drop)]
pub(crate) struct Section {
    pub from: Extent,
    pub to: Extent,
    pub ghost begins: { pos 0 ≤ℤ from.lo },
    pub ghost ends: { to.hi ≤ℤ pos (2 ^ 32) },
}

/// The regions of a path, or of a leg, by their ends in 64 bits.
#[derive(Clone, Copy, Drop)]
pub(crate) struct Sections {
    pub source: Section,
    pub middle: Section,
    pub receiver: Section,
}
