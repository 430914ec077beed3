//! Products of intervals.

pub(crate) mod short;
pub(crate) mod short_products;
pub(crate) mod span;
pub(crate) mod whole_factors;

ghost use Rattle.std.specs.Prelude.{◌≡◌, ◌<◌, ◌^◌, ℤ, pos, ◌*ℤ◌, ◌≤ℤ◌, unsigned_abs};
ghost use Rattle.fix_interval.specs.Interval.{IsEnd, IsOrdered};
ghost use Rattle.fix_interval.specs.Units.{unit};
ghost use Rattle.fix_interval.specs.Round.{floor_of, ceil_of};
ghost use Rattle.fix_interval.specs.Values.{end_of, least_product, greatest_product, product_of_ends, rounded_outward, mul_of};

use crate::iv::Iv;
use crate::products::short::short_ends;
use crate::products::short_products::short_multiple;
use crate::products::span::{Span, bounded};
use crate::values::{end, greater_of_highs, lesser_of_lows, negated};

/// The product of two quantities: from the least of the four products of ends to the greatest, rounded
/// outward. Nothing is known where an end is unbounded or such a product reaches 2^126.
#[inline(always)]
pub fn mul(a: Iv, b: Iv) -> Iv
    ensures { result ≡ mul_of a b }
{
    let (Some(first), Some(second)) = (short_ends(a), short_ends(b)) else {
        return product_of_any(a, b);
    };
    if 0 <= first.lo {
        short_multiple(first, second)
    } else if 0 <= second.lo {
        short_multiple(second, first)
    } else {
        product_of_any(a, b)
    }
}

/// The same, whatever the ends.
#[cold]
#[inline(never)]
fn product_of_any(a: Iv, b: Iv) -> Iv
    ensures { result ≡ mul_of a b }
{
    let Some(first) = bounded(a) else {
        return Iv::ALL;
    };
    let Some(second) = bounded(b) else {
        return Iv::ALL;
    };
    product_of_spans(first, second)
}

fn product_of_spans(a: Span, b: Span) -> Iv
    ensures { result ≡ product_of_ends a.lo a.hi b.lo b.hi }
{
    if 0 <= a.lo {
        multiple_of_span(a, b)
    } else if 0 <= b.lo {
        multiple_of_span(b, a)
    } else {
        product_of_mixed(a, b)
    }
}

/// The product where the first factor isn't negative, so that two products of ends are enough.
fn multiple_of_span(a: Span, b: Span) -> Iv
    requires { pos 0 ≤ℤ a.lo }
    ensures { result ≡ product_of_ends a.lo a.hi b.lo b.hi }
{
    from_products(least_multiple(a, b), greatest_multiple(a, b))
}

/// The least product of ends where the first factor isn't negative: of the low end of the second.
fn least_multiple(a: Span, b: Span) -> Option<i128>
    requires { pos 0 ≤ℤ a.lo }
    ensures { result ≡ end_of (least_product a.lo a.hi b.lo b.hi) }
{
    if 0 <= b.lo {
        product(a.lo, b.lo)
    } else {
        product(a.hi, b.lo)
    }
}

/// The greatest product of ends where the first factor isn't negative: the least with the second negated, negated itself.
fn greatest_multiple(a: Span, b: Span) -> Option<i128>
    requires { pos 0 ≤ℤ a.lo }
    ensures { result ≡ end_of (greatest_product a.lo a.hi b.lo b.hi) }
{
    negated(least_multiple(a, b.negated()))
}

/// The product by all four products of ends; where one of them is too large, so is the least or the greatest.
fn product_of_mixed(a: Span, b: Span) -> Iv
    ensures { result ≡ product_of_ends a.lo a.hi b.lo b.hi }
{
    let p = product(a.lo, b.lo);
    let q = product(a.lo, b.hi);
    let r = product(a.hi, b.lo);
    let s = product(a.hi, b.hi);
    from_products(
        lesser_of_lows(lesser_of_lows(p, q), lesser_of_lows(r, s)),
        greater_of_highs(greater_of_highs(p, q), greater_of_highs(r, s)),
    )
}

/// The product of two ends in units of 2^-64, or `None` where it reaches 2^126.
fn product(x: i128, y: i128) -> Option<i128>
    ensures { result ≡ end_of (x *ℤ y) }
{
    match (i64::try_from(x), i64::try_from(y)) {
        (Ok(x), Ok(y)) => end(x as i128 * y as i128),
        _ => end(x.checked_mul(y)?),
    }
}

/// The interval from the least to the greatest product, rounded outward to units of 2^-32.
fn from_products(least: Option<i128>, greatest: Option<i128>) -> Iv
    requires low_end { IsEnd least }
    requires high_end { IsEnd greatest }
    requires ordered { IsOrdered least greatest }
    ensures { result ≡ rounded_outward least greatest }
{
    match (least, greatest) {
        (Some(least), Some(greatest)) => Iv::of_ends(
            Some(units_below(least)),
            Some(units_above(greatest)),
        ),
        _ => Iv::ALL,
    }
}

/// A product in units of 2^-64 as units of 2^-32, rounded down.
#[inline(always)]
pub(crate) fn units_below(product: i128) -> i128
    requires { unsigned_abs product < 2 ^ 126 }
    ensures { result ≡ floor_of product unit }
{
    product >> 32
}

/// A product in units of 2^-64 as units of 2^-32, rounded up.
fn units_above(product: i128) -> i128
    requires { unsigned_abs product < 2 ^ 126 }
    ensures { result ≡ ceil_of product unit }
{
    -(-product >> 32)
}
