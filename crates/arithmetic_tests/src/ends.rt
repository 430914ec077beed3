//! The ends of intervals.
use fix_interval::{Iv, div, exact, hull};
use std::process::Abort;

/// Asserts that an interval has these ends, in units of 2^-32.
pub(crate) fn has_ends(rt: &impl Abort, found: Iv, lo: i128, hi: i128) {
    assert_eq!(rt; (found.low(), found.high()), (Some(lo), Some(hi)));
}

/// The interval with these ends, in units of 2^-32.
pub(crate) fn between(low: i64, high: i64) -> Iv {
    let unit = exact(1 << 32);
    hull(div(exact(low), unit), div(exact(high), unit))
}
