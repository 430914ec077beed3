//! Products of intervals whose ends are short: one product of 64-bit numbers an end.

ghost use Rattle.std.specs.Prelude.{◌≡◌, ◌<◌, ◌^◌, pos, ◌*ℤ◌, ◌≤ℤ◌, unsigned_abs};
ghost use Rattle.fix_interval.specs.Units.{unit};
ghost use Rattle.fix_interval.specs.Round.{floor_of, ceil_of};
ghost use Rattle.fix_interval.specs.Values.{least_product, greatest_product, product_of_ends};

use crate::iv::Iv;
use crate::products::short::Short;
use crate::products::units_below;

/// The product where the first factor isn't negative, so that two products of ends are enough.
#[inline(always)]
pub(crate) fn short_multiple(a: Short, b: Short) -> Iv
    requires { pos 0 ≤ℤ a.lo }
    ensures { result ≡ product_of_ends a.lo a.hi b.lo b.hi }
{
    Iv::of_ends(Some(least_multiple(a, b)), Some(greatest_multiple(a, b)))
}

/// The least product of ends, rounded down: of the low end of the second factor.
#[inline(always)]
fn least_multiple(a: Short, b: Short) -> i128
    requires { pos 0 ≤ℤ a.lo }
    ensures { result ≡ floor_of (least_product a.lo a.hi b.lo b.hi) unit }
{
    if 0 <= b.lo {
        units_below(product(a.lo, b.lo))
    } else {
        units_below(product(a.hi, b.lo))
    }
}

/// The greatest product of ends, rounded up: the least with the second factor negated, negated itself.
#[inline(always)]
fn greatest_multiple(a: Short, b: Short) -> i128
    requires { pos 0 ≤ℤ a.lo }
    ensures { result ≡ ceil_of (greatest_product a.lo a.hi b.lo b.hi) unit }
{
    -least_multiple(a, b.negated())
}

/// The product of two short ends in units of 2^-64.
#[inline(always)]
fn product(x: i64, y: i64) -> i128
    requires first { unsigned_abs x < 2 ^ 62 }
    requires second { unsigned_abs y < 2 ^ 62 }
    ensures value { result ≡ x *ℤ y }
    ensures small { unsigned_abs result < 2 ^ 126 }
{
    i128::from(x) * i128::from(y)
}
