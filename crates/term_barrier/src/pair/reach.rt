//! How far the number of two edges under their logarithm reaches at most, in whole numbers.
//!
//! The number is 3 + (C_2 / λ) C_3 z K_met, and C_3 is at most 3. So three products and two comparisons tell of most pairs
//! that they can't raise the greatest number of a band, before anything is divided.

ghost use Rattle.std.specs.Prelude.{◌≡◌, ◌≤◌, ◌<◌, ◌≤ℤ◌, ◌<ℤ◌, ◌+ℤ◌, ◌+◌, ◌*◌, ◌*ℤ◌, pos, neg_ℤ, ◌-◌, ◌^◌, unwrap_or, IsTrue, IfSome};
ghost use Rattle.std.specs.Int.{div_ceil, int_max};
ghost use Rattle.fix_interval.specs.Bounds.{AreBetween};
ghost use Rattle.fix_interval.specs.Interval.{IsInterval, open_low, open_high};
ghost use Rattle.term_barrier.specs.inner.Reaching.{growth_of, IsNear, IsReach, StaysBelow};

use crate::pair::factors::Factors;
use crate::pair::spacing::EdgeSpacing;
use fix_interval::Iv;
use scene_geom::Band;

/// 3 in units of 2^-32.
const THREE: i128 = 3 << 32;

/// One unit less than 1, by which a quotient that is rounded down becomes one that is rounded up.
const ROUNDING: u128 = (1 << 32) - 1;

/// So many units of 2^-32 m² may the ends of a square and of its third be off, that C_3 still is at most 3 in each band:
/// twice (5 λ)² at 8000 Hz is more.
const SLACK: i128 = (1 << 28) - 1;

/// How far z and K_met of two edges reach, by which what stands under their logarithm is bounded in each band. It is known
/// where the ends are such that C_3 is at most 3.
pub(crate) fn reach(spacing: &EdgeSpacing, z: Iv, k: Iv) -> Option<Factors>
    ensures { IfSome result (IsReach spacing.now z k) }
{
    let (square, third) = (spacing.square, spacing.third);
    if lies_between(square, 0, 1 << 90)
        && lies_between(third, 0, 1 << 90)
        && lies_between(z, -(1 << 62), 1 << 52)
        && lies_between(k, 0, 1 << 32)
        && is_near(square, third)
    {
        Some(factors(z, k))
    } else {
        None
    }
}

/// Whether both ends lie between two numbers of units.
pub(crate) fn lies_between(x: Iv, least: i128, most: i128) -> bool
    requires least { open_low <ℤ least }
    requires most { most <ℤ open_high }
    ensures within { IsTrue result → AreBetween least most x }
    ensures interval { IsInterval x }
{
    least <= x.lo() && x.hi() <= most
}

/// Whether a square is at most three times its third, but for the slack.
fn is_near(square: Iv, third: Iv) -> bool
    requires { AreBetween (pos 0) (pos (2 ^ 90)) third }
    ensures { IsTrue result → IsNear square third }
{
    square.hi() <= thrice(third)
}

/// Three times the low end, and the slack.
fn thrice(third: Iv) -> i128
    requires { AreBetween (pos 0) (pos (2 ^ 90)) third }
    ensures { result ≡ (pos 3 *ℤ unwrap_or third.lo open_low) +ℤ pos (2 ^ 28 - 1) }
{
    3 * third.lo() + SLACK
}

/// The high end of z, which counts as at least 0, and both ends of K_met.
fn factors(z: Iv, k: Iv) -> Factors
    requires z { AreBetween (neg_ℤ (pos (2 ^ 62))) (pos (2 ^ 52)) z }
    requires k { AreBetween (pos 0) (pos (2 ^ 32)) k }
    ensures z { pos result.z ≡ int_max (unwrap_or z.hi open_high) (pos 0) }
    ensures k_low { pos result.k_low ≡ unwrap_or k.lo open_low }
    ensures k_high { pos result.k_high ≡ unwrap_or k.hi open_high }
{
    Factors {
        z: z.hi().max(0) as u64,
        k_low: k.lo() as u64,
        k_high: k.hi() as u64,
    }
}

/// Three times C_2 / λ, which is rounded up, in units of 2^-32 per metre.
#[tactic(auto, unfolding(crate::specs::inner::Reaching::growth_of))]
pub(crate) fn growth(band: Band) -> u64
    ensures is { result ≡ growth_of band }
    ensures few { result < 2 ^ 43 }
{
    match band {
        Band::Hz63 => 47_749_930_527,
        Band::Hz125 => 94_741_925_649,
        Band::Hz250 => 189_483_851_295,
        Band::Hz500 => 378_967_702_590,
        Band::Hz1000 => 757_935_405_177,
        Band::Hz2000 => 1_515_870_810_354,
        Band::Hz4000 => 3_031_741_620_708,
        Band::Hz8000 => 6_063_483_241_413,
    }
}

/// Whether in a band with this growth neither end of the number is above that of an interval.
pub(crate) fn stays_below(x: Iv, growth: u64, factors: Factors) -> bool
    requires { growth < 2 ^ 43 }
    ensures { IsTrue result → StaysBelow x growth factors }
{
    let grown = product(growth, factors.z);
    most_end(factors.k_high, grown) <= x.hi() && most_end(factors.k_low, grown) <= x.lo()
}

/// What an end of the number is at most for that end of K_met and what K_met multiplies, in units of 2^-32.
fn most_end(k: u64, grown: u64) -> i128
    requires k { k ≤ 2 ^ 32 }
    requires grown { grown ≤ 2 ^ 63 }
    ensures { result ≡ pos (3 * 2 ^ 32 + div_ceil (k * grown) (2 ^ 32)) }
{
    THREE + i128::from(product(k, grown))
}

/// A product of two numbers of units of 2^-32, in such units and rounded up.
fn product(a: u64, b: u64) -> u64
    requires { a * b ≤ 2 ^ 95 }
    ensures value { result ≡ div_ceil (a * b) (2 ^ 32) }
    ensures few { result ≤ 2 ^ 63 }
{
    ((u128::from(a) * u128::from(b) + ROUNDING) >> 32) as u64
}
