//! Constants and quotients of intervals.

pub(crate) mod estimates;
pub(crate) mod whole_quotient;

ghost use Rattle.std.specs.Prelude.{◌≡◌, ◌<◌, ◌^◌, ◌/◌, ℤ, pos, neg_ℤ, ◌*ℤ◌, ◌<ℤ◌, ◌≤ℤ◌, unsigned_abs, IsTrue, ◌↔◌};
ghost use Rattle.std.specs.Int.{div_ceil, int_min, int_max};
ghost use Rattle.fix_interval.specs.Units.{unit};
ghost use Rattle.fix_interval.specs.Round.{floor_of, ceil_of, floor_quotient, ceil_quotient};
ghost use Rattle.fix_interval.specs.Values.{ratio_of, quotient_of_ends, div_of};

use crate::iv::Iv;
use crate::products::span::{Span, bounded};
use crate::quotients::whole_quotient::quotient;

/// How many units are one, 2^32.
const UNIT: i128 = 1 << 32;

/// The same without sign, for divisors.
const UNITS: u128 = 1 << 32;

/// Dividends and numerators stay below this absolute value, 2^94, so that they fit an end in units.
const DIVIDEND_LIMIT: u128 = 1 << 94;

/// The interval of a whole number alone.
#[inline(always)]
pub fn exact(n: i64) -> Iv
    ensures { result ≡ ratio_of n 1 }
{
    let units = n as i128 * UNIT;
    Iv::of_ends(Some(units), Some(units))
}

/// The least interval that holds the fraction `p / q`; nothing is known where `p` reaches 2^94.
#[inline(always)]
pub fn ratio(p: i128, q: i128) -> Iv
    requires { pos 0 <ℤ q }
    ensures { result ≡ ratio_of p (unsigned_abs q) }
{
    if p.unsigned_abs() < DIVIDEND_LIMIT {
        fraction(p, q.unsigned_abs())
    } else {
        Iv::ALL
    }
}

/// The quotient of two quantities: from the least of the four quotients of ends to the greatest, rounded
/// outward. Nothing is known where an end is unbounded, the divisor may be 0, or an end of the dividend
/// reaches 2^94.
#[inline(always)]
pub fn div(a: Iv, b: Iv) -> Iv
    ensures { result ≡ div_of a b }
{
    let Some(first) = bounded(a) else {
        return Iv::ALL;
    };
    let Some(second) = bounded(b) else {
        return Iv::ALL;
    };
    quotient_of_spans(first, second)
}

#[inline(always)]
fn quotient_of_spans(a: Span, b: Span) -> Iv
    ensures { result ≡ quotient_of_ends a.lo a.hi b.lo b.hi }
{
    if !is_dividend(a) {
        Iv::ALL
    } else if 0 < b.lo {
        quotient_by_positive(a, b)
    } else if b.hi < 0 {
        quotient_by_positive(a.negated(), b.negated())
    } else {
        Iv::ALL
    }
}

/// Whether both ends stay below the limit of dividends.
#[inline(always)]
fn is_dividend(a: Span) -> bool
    ensures { IsTrue result ↔ ((unsigned_abs a.lo < 2 ^ 94) × (unsigned_abs a.hi < 2 ^ 94)) }
{
    a.lo.unsigned_abs() < DIVIDEND_LIMIT && a.hi.unsigned_abs() < DIVIDEND_LIMIT
}

/// The quotient by a positive divisor.
#[inline(always)]
fn quotient_by_positive(a: Span, b: Span) -> Iv
    requires positive { pos 0 <ℤ b.lo }
    requires low_dividend { unsigned_abs a.lo < 2 ^ 94 }
    requires high_dividend { unsigned_abs a.hi < 2 ^ 94 }
    ensures { result ≡ quotient_of_ends a.lo a.hi b.lo b.hi }
{
    Iv::of_ends(least_quotient(a, b), greatest_quotient(a, b))
}

/// The lesser quotient of the low end by the ends of a positive divisor: by the greater of them where the
/// low end isn't negative.
#[inline(always)]
fn least_quotient(a: Span, by: Span) -> Option<i128>
    requires positive { pos 0 <ℤ by.lo }
    requires small { unsigned_abs a.lo < 2 ^ 94 }
    ensures { result ≡ Some (int_min (floor_quotient (a.lo *ℤ pos unit) by.lo)
        (floor_quotient (a.lo *ℤ pos unit) by.hi)) }
{
    if 0 <= a.lo {
        fraction(a.lo, by.hi.unsigned_abs()).low()
    } else {
        fraction(a.lo, by.lo.unsigned_abs()).low()
    }
}

/// The greater quotient of the high end by the ends of a positive divisor: by the lesser of them where the
/// high end isn't negative.
#[inline(always)]
fn greatest_quotient(a: Span, by: Span) -> Option<i128>
    requires positive { pos 0 <ℤ by.lo }
    requires small { unsigned_abs a.hi < 2 ^ 94 }
    ensures { result ≡ Some (int_max (ceil_quotient (a.hi *ℤ pos unit) by.lo)
        (ceil_quotient (a.hi *ℤ pos unit) by.hi)) }
{
    if 0 <= a.hi {
        fraction(a.hi, by.lo.unsigned_abs()).high()
    } else {
        fraction(a.hi, by.hi.unsigned_abs()).high()
    }
}

/// The least interval that holds a fraction with a positive divisor.
#[inline(always)]
fn fraction(x: i128, d: u128) -> Iv
    requires small { unsigned_abs x < 2 ^ 94 }
    requires divisor { 0 < d }
    ensures { result ≡ ratio_of x d }
{
    let (low, high) = units_over(x, d);
    Iv::of_ends(Some(low), Some(high))
}

/// The quotient of `x` in units rounded down, and rounded up. Where the divisor is a whole number of units, as
/// it mostly is, both are divided by the unit first, so that the numbers are small.
#[inline(always)]
fn units_over(x: i128, d: u128) -> (i128, i128)
    requires small { unsigned_abs x < 2 ^ 94 }
    requires divisor { 0 < d }
    ensures floor { result.0 ≡ floor_of (x *ℤ pos unit) d }
    ensures ceil { result.1 ≡ ceil_of (x *ℤ pos unit) d }
{
    if d % UNITS == 0 {
        rounded(x, d / UNITS)
    } else {
        rounded(x * UNIT, d)
    }
}

/// The quotient rounded down, and rounded up.
#[inline(always)]
fn rounded(n: i128, d: u128) -> (i128, i128)
    requires small { unsigned_abs n < 2 ^ 126 }
    requires divisor { 0 < d }
    ensures floor { result.0 ≡ floor_of n d }
    ensures ceil { result.1 ≡ ceil_of n d }
{
    let (inner, outer) = natural_quotients(n.unsigned_abs(), d);
    if 0 <= n {
        (inner as i128, outer as i128)
    } else {
        (-(outer as i128), -(inner as i128))
    }
}

/// The quotient of two numbers without sign rounded down, and rounded up, by one division.
#[inline(always)]
fn natural_quotients(n: u128, d: u128) -> (u128, u128)
    requires { 0 < d }
    ensures down { result.0 ≡ n / d }
    ensures up { result.1 ≡ div_ceil n d }
{
    let inner = quotient(n, d);
    if inner * d == n {
        (inner, inner)
    } else {
        (inner, inner + 1)
    }
}
