//! Constants, sums, the greater and the lesser, the hull and the choice between two intervals.

ghost use Rattle.std.specs.Prelude.{◌≡◌, ◌<◌, pos, ℤ, neg_ℤ, unsigned_abs};
ghost use Rattle.std.specs.Option.{option_map};
ghost use Rattle.fix_interval.specs.Interval.{IsEnd};
ghost use Rattle.fix_interval.specs.Values.{end_of, ratio_of, sum_of_ends, add_of, neg_of, sub_of, greater_low, lesser_low, greater_high, lesser_high, max_of, min_of, hull_of, is_before, is_up_to, less_of, pick_of};

use crate::iv::Iv;
use crate::products::short::short_ends;
use crate::truth::Truth;

/// An end's absolute value stays below this number of units, 2^126.
pub(crate) const END_LIMIT: u128 = 1 << 126;

/// The sum of two quantities: the ends are added.
#[inline(always)]
pub fn add(a: Iv, b: Iv) -> Iv
    ensures { result ≡ add_of a b }
{
    match (short_ends(a), short_ends(b)) {
        (Some(first), Some(second)) => first.plus(second),
        _ => sum(a, b),
    }
}

/// The difference of two quantities, as the sum of the first and the negated second.
#[inline(always)]
pub fn sub(a: Iv, b: Iv) -> Iv
    ensures { result ≡ sub_of a b }
{
    match (short_ends(a), short_ends(b)) {
        (Some(first), Some(second)) => first.plus(second.negated()),
        _ => sum(a, neg(b)),
    }
}

/// The sum of two quantities, whatever their ends.
#[cold]
#[inline(never)]
fn sum(a: Iv, b: Iv) -> Iv
    ensures { result ≡ add_of a b }
{
    Iv::of_ends(sum_of(a.low(), b.low()), sum_of(a.high(), b.high()))
}

/// The negated quantity: the ends are negated and exchanged.
pub fn neg(a: Iv) -> Iv
    ensures { result ≡ neg_of a }
{
    Iv::of_ends(negated(a.high()), negated(a.low()))
}

/// The greater of two quantities, end by end.
pub fn max(a: Iv, b: Iv) -> Iv
    ensures { result ≡ max_of a b }
{
    Iv::of_ends(
        greater_of_lows(a.low(), b.low()),
        greater_of_highs(a.high(), b.high()),
    )
}

/// The lesser of two quantities, end by end.
pub fn min(a: Iv, b: Iv) -> Iv
    ensures { result ≡ min_of a b }
{
    Iv::of_ends(
        lesser_of_lows(a.low(), b.low()),
        lesser_of_highs(a.high(), b.high()),
    )
}

/// The least interval that holds both intervals.
pub fn hull(a: Iv, b: Iv) -> Iv
    ensures { result ≡ hull_of a b }
{
    Iv::of_ends(
        lesser_of_lows(a.low(), b.low()),
        greater_of_highs(a.high(), b.high()),
    )
}

/// Whether the first quantity is less than the second: `Sure` where the high end of `a` is below the low
/// end of `b`, `Never` where the low end of `a` is at least the high end of `b`, and else `Unsure`.
pub fn less(a: Iv, b: Iv) -> Truth
    ensures { result ≡ less_of a b }
{
    if before(a.high(), b.low()) {
        Truth::Sure
    } else if up_to(b.high(), a.low()) {
        Truth::Never
    } else {
        Truth::Unsure
    }
}

/// What a comparison picks: `yes` where it is sure, `no` where it never holds, and the hull of both where
/// it isn't decided.
pub fn pick(t: Truth, yes: Iv, no: Iv) -> Iv
    ensures { result ≡ pick_of t yes no }
{
    match t {
        Truth::Sure => yes,
        Truth::Never => no,
        Truth::Unsure => hull(yes, no),
    }
}

/// This number of units as an end: unbounded where its absolute value reaches 2^126.
pub(crate) fn end(units: i128) -> Option<i128>
    ensures { result ≡ end_of units }
{
    if units.unsigned_abs() < END_LIMIT {
        Some(units)
    } else {
        None
    }
}

/// The sum of two ends of one side.
fn sum_of(x: Option<i128>, y: Option<i128>) -> Option<i128>
    requires first { IsEnd x }
    requires second { IsEnd y }
    ensures { result ≡ sum_of_ends x y }
{
    match (x, y) {
        (Some(x), Some(y)) => end(x + y),
        _ => None,
    }
}

/// The negated end, which belongs to the other side.
pub(crate) fn negated(x: Option<i128>) -> Option<i128>
    requires { IsEnd x }
    ensures { result ≡ option_map neg_ℤ x }
{
    match x {
        Some(x) => Some(-x),
        None => None,
    }
}

/// The greater of two low ends; unbounded is minus infinity.
fn greater_of_lows(x: Option<i128>, y: Option<i128>) -> Option<i128>
    ensures { result ≡ greater_low x y }
{
    match (x, y) {
        (Some(x), Some(y)) => Some(x.max(y)),
        (Some(x), None) => Some(x),
        (None, y) => y,
    }
}

/// The lesser of two low ends; unbounded is minus infinity.
pub(crate) fn lesser_of_lows(x: Option<i128>, y: Option<i128>) -> Option<i128>
    ensures { result ≡ lesser_low x y }
{
    match (x, y) {
        (Some(x), Some(y)) => Some(x.min(y)),
        _ => None,
    }
}

/// The greater of two high ends; unbounded is plus infinity.
pub(crate) fn greater_of_highs(x: Option<i128>, y: Option<i128>) -> Option<i128>
    ensures { result ≡ greater_high x y }
{
    match (x, y) {
        (Some(x), Some(y)) => Some(x.max(y)),
        (None, _) | (_, None) => None,
    }
}

/// The lesser of two high ends; unbounded is plus infinity.
fn lesser_of_highs(x: Option<i128>, y: Option<i128>) -> Option<i128>
    ensures { result ≡ lesser_high x y }
{
    match (x, y) {
        (Some(x), Some(y)) => Some(x.min(y)),
        (Some(x), None) => Some(x),
        (None, y) => y,
    }
}

/// Whether a high end is below a low end.
fn before(high: Option<i128>, low: Option<i128>) -> bool
    ensures { result ≡ is_before high low }
{
    match (high, low) {
        (Some(high), Some(low)) => high < low,
        _ => false,
    }
}

/// Whether a high end is at most a low end.
fn up_to(high: Option<i128>, low: Option<i128>) -> bool
    ensures { result ≡ is_up_to high low }
{
    match (high, low) {
        (Some(high), Some(low)) => high <= low,
        _ => false,
    }
}
