//! Quotients by widths of stretches.

ghost use Rattle.std.specs.Prelude.{◌≡◌, ◌<◌, ◌≤◌, ◌*◌, ◌/◌, ◌^◌, pos, ◌*ℤ◌, ◌≤ℤ◌, ◌<ℤ◌, unsigned_abs, true};
ghost use Rattle.std.specs.Int.{div_ceil, int_min, int_max};
ghost use Rattle.fix_interval.specs.Units.{unit};
ghost use Rattle.fix_interval.specs.Round.{floor_quotient, ceil_quotient};
ghost use Rattle.fix_interval.specs.Values.{mul_of, div_of};
ghost use Rattle.term_ground.specs.inner.Extents.{by_ends, no_length};

use crate::extents::extent::Extent;
use fix_interval::{Iv, div};

/// A dividend below this absolute value times the number of units that are one fits 64 bits.
const DIVIDEND_LIMIT: u64 = 1 << 32;

/// Lengths stay below this number of units, 32 km.
const LENGTH_LIMIT: i64 = 1 << 47;

/// The number of units of the least length that divides by short divisions.
const MIN_LENGTH: i64 = 1 << 16;

/// Whether a length is exactly 0, as that of a zone which lies before a region is.
#[inline(always)]
pub(crate) fn is_nothing(length: Extent) -> bool
    ensures { result ≡ true → by_ends length ≡ no_length }
{
    length.lo == 0 && length.hi == 0
}

/// Whether a width isn't 0, so that no length makes no term over it.
#[inline(always)]
pub(crate) fn divides(width: Extent) -> bool
    ensures { result ≡ true → (difference : Extent)
        → div_of (mul_of (by_ends difference) no_length) (by_ends width) ≡ no_length }
{
    0 < width.lo || width.hi < 0
}

/// The quotient of two quantities, as `div` gives it. Where the first lies between -1 and 1 and the second is above 0, as
/// the width of a stretch is, it is one short division an end.
#[inline(always)]
pub(crate) fn over_width(x: Iv, width: Extent) -> Iv
    ensures { result ≡ div_of x (by_ends width) }
{
    match Extent::of(x) {
        Some(part) if 0 < width.lo && is_dividend(part) => short_quotient(part, width),
        _ => any_quotient(x, width.interval()),
    }
}

/// The same, whatever the ends.
#[cold]
#[inline(never)]
fn any_quotient(x: Iv, width: Iv) -> Iv
    ensures { result ≡ div_of x width }
{
    div(x, width)
}

/// The quotient of two lengths in metres, as `div` gives it. Where the first isn't negative and is short of 32 km, and the
/// second is at least 2^-16 m and short of 64 km, it is two short divisions an end.
#[inline(always)]
pub(crate) fn over_length(x: Iv, length: Iv) -> Iv
    ensures { result ≡ div_of x length }
{
    match (Extent::of(x), Extent::of(length)) {
        (Some(part), Some(by)) if are_lengths(part, by) => length_quotient(part, by),
        _ => any_quotient(x, length),
    }
}

/// Whether two lengths lie within these limits.
#[inline(always)]
fn are_lengths(x: Extent, by: Extent) -> bool
    ensures start { result ≡ true → pos 0 ≤ℤ x.lo }
    ensures end { result ≡ true → x.hi <ℤ pos (2 ^ 47) }
    ensures least { result ≡ true → pos (2 ^ 16) ≤ℤ by.lo }
    ensures most { result ≡ true → by.hi <ℤ pos (2 ^ 48) }
{
    0 <= x.lo && x.hi < LENGTH_LIMIT && MIN_LENGTH <= by.lo && by.hi < 2 * LENGTH_LIMIT
}

/// The quotient of lengths within them.
#[inline(always)]
fn length_quotient(x: Extent, by: Extent) -> Iv
    requires start { pos 0 ≤ℤ x.lo }
    requires end { x.hi <ℤ pos (2 ^ 47) }
    requires least { pos (2 ^ 16) ≤ℤ by.lo }
    requires most { by.hi <ℤ pos (2 ^ 48) }
    ensures { result ≡ div_of (by_ends x) (by_ends by) }
{
    let low = units_down(x.lo.unsigned_abs(), by.hi.unsigned_abs());
    let high = units_up(x.hi.unsigned_abs(), by.lo.unsigned_abs());
    Iv::of_ends(Some(low.into()), Some(high.into()))
}

/// A quotient in units of 2^-32, rounded down: that in units of 2^-16, and then that of the remainder.
#[inline(always)]
fn units_down(n: u64, d: u64) -> u64
    requires number { n < 2 ^ 47 }
    requires least { 2 ^ 16 ≤ d }
    requires most { d < 2 ^ 48 }
    ensures { result ≡ n * 2 ^ 32 / d }
{
    let first = n * (1 << 16);
    first / d * (1 << 16) + first % d * (1 << 16) / d
}

/// The same, rounded up.
#[inline(always)]
fn units_up(n: u64, d: u64) -> u64
    requires number { n < 2 ^ 47 }
    requires least { 2 ^ 16 ≤ d }
    requires most { d < 2 ^ 48 }
    ensures { result ≡ div_ceil (n * 2 ^ 32) d }
{
    let first = n * (1 << 16);
    first / d * (1 << 16) + rounded_up(first % d * (1 << 16), d)
}

/// Whether both ends lie strictly between -1 and 1.
#[inline(always)]
fn is_dividend(x: Extent) -> bool
    ensures low { result ≡ true → unsigned_abs x.lo < 2 ^ 32 }
    ensures high { result ≡ true → unsigned_abs x.hi < 2 ^ 32 }
{
    x.lo.unsigned_abs() < DIVIDEND_LIMIT && x.hi.unsigned_abs() < DIVIDEND_LIMIT
}

/// The quotient by what is above 0.
#[inline(always)]
fn short_quotient(x: Extent, by: Extent) -> Iv
    requires positive { pos 0 <ℤ by.lo }
    requires low { unsigned_abs x.lo < 2 ^ 32 }
    requires high { unsigned_abs x.hi < 2 ^ 32 }
    ensures { result ≡ div_of (by_ends x) (by_ends by) }
{
    Iv::of_ends(Some(least(x.lo, by)), Some(greatest(x.hi, by)))
}

/// The lesser of the quotients of a low end, rounded down.
#[inline(always)]
fn least(units: i64, by: Extent) -> i128
    requires positive { pos 0 <ℤ by.lo }
    requires small { unsigned_abs units < 2 ^ 32 }
    ensures { result ≡ int_min (floor_quotient (units *ℤ pos unit) by.lo)
        (floor_quotient (units *ℤ pos unit) by.hi) }
{
    let scaled = units.unsigned_abs() * (1 << 32);
    if 0 <= units {
        i128::from(scaled / by.hi.unsigned_abs())
    } else {
        -i128::from(rounded_up(scaled, by.lo.unsigned_abs()))
    }
}

/// The greater of the quotients of a high end, rounded up.
#[inline(always)]
fn greatest(units: i64, by: Extent) -> i128
    requires positive { pos 0 <ℤ by.lo }
    requires small { unsigned_abs units < 2 ^ 32 }
    ensures { result ≡ int_max (ceil_quotient (units *ℤ pos unit) by.lo)
        (ceil_quotient (units *ℤ pos unit) by.hi) }
{
    let scaled = units.unsigned_abs() * (1 << 32);
    if 0 <= units {
        i128::from(rounded_up(scaled, by.lo.unsigned_abs()))
    } else {
        -i128::from(scaled / by.hi.unsigned_abs())
    }
}

/// The quotient rounded up.
#[inline(always)]
pub(crate) fn rounded_up(n: u64, d: u64) -> u64
    requires { 0 < d }
    ensures { result ≡ div_ceil n d }
{
    let inner = n / d;
    if inner * d == n { inner } else { inner + 1 }
}
