//! Sums and differences of quantities that are known to be small: no end is tested.
ghost use Rattle.std.specs.Prelude.{◌≡◌, ◌≤◌, ◌^◌, Some, unsigned_abs};
ghost use Rattle.fix_interval.specs.Interval.{IsInterval};
ghost use Rattle.fix_interval.specs.Values.{add_of, sub_of};
ghost use Rattle.path_calc.specs.inner.Ranges.{IsSmall};

use fix_interval::{Iv, OPEN_HI, OPEN_LO};

/// The sum of two small quantities, as `add` gives it.
#[inline(always)]
pub(crate) fn plus(a: Iv, b: Iv) -> Iv
    requires first { IsSmall a }
    requires second { IsSmall b }
    ensures { result ≡ add_of a b }
{
    let (low, high) = ends(a);
    let (other_low, other_high) = ends(b);
    Iv::of_ends(Some(low + other_low), Some(high + other_high))
}

/// The difference of two small quantities, as `sub` gives it.
#[inline(always)]
pub(crate) fn minus(a: Iv, b: Iv) -> Iv
    requires first { IsSmall a }
    requires second { IsSmall b }
    ensures { result ≡ sub_of a b }
{
    let (low, high) = ends(a);
    let (other_low, other_high) = ends(b);
    Iv::of_ends(Some(low - other_high), Some(high - other_low))
}

/// The ends of a small quantity, in units of 2^-32. As they are bounded, nothing stands in their places, and no test is
/// left of it.
#[inline(always)]
fn ends(a: Iv) -> (i128, i128)
    requires { IsSmall a }
    ensures low { a.lo ≡ Some result.0 }
    ensures high { a.hi ≡ Some result.1 }
    ensures small_low { unsigned_abs result.0 ≤ 2 ^ 120 }
    ensures small_high { unsigned_abs result.1 ≤ 2 ^ 120 }
    ensures interval { IsInterval a }
{
    (a.low().unwrap_or(OPEN_LO), a.high().unwrap_or(OPEN_HI))
}
