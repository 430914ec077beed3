//! e to the power of the negative of an interval, as ISO 9613-2 takes it in Table 3 and in equation (18).

ghost use Rattle.std.specs.Prelude.{◌≡◌, ◌<◌, ◌≤◌, ◌*◌, ◌/◌, ◌^◌, ◌≤ℤ◌, IsSomeAnd, min, pos, Some, unsigned_abs};
ghost use Rattle.std.specs.Option.{option_map_or, ForSome};
ghost use Rattle.std.specs.Int.{div_ceil};
ghost use Rattle.fix_interval.specs.ExpNeg.{exp_neg_of, exp_neg_low, exp_neg_high, decay_low, decay_high};

use crate::estimates::{DECAY_EXCESS, DECAY_MARGIN, decay_estimate};
use crate::product::{shrunk_down, shrunk_up, units_up};
use crate::tables::{LOSSES_HIGH, LOSSES_LOW, WHOLE_HIGH, WHOLE_LOW};
use fix_interval::{Iv, taken};

/// The exponent 23, from which on a decay is less than the least end above 0.
const GREATEST: u64 = 23 << 32;

/// e to the power of the negative of an interval that is not below 0: the low end from the high end of the
/// argument, rounded down, and the high end from its low end, rounded up to 2^-32. The low end is bounded and
/// not below 0; the high end is at most 1.
pub fn exp_neg(a: Iv) -> Iv
    requires { IsSomeAnd a.lo (λ x. pos 0 ≤ℤ x) }
    ensures value { result ≡ exp_neg_of a }
    ensures low { IsSomeAnd result.lo (λ z. pos 0 ≤ℤ z) }
    ensures high { IsSomeAnd result.hi (λ z. z ≤ℤ pos (2 ^ 32)) }
{
    let low = exponent(a.low());
    let high = exponent(a.high());
    Iv::of_ends(low_decay(high), high_decay(low))
}

/// The exponent of an end, kept within 23; an unbounded one is 23.
fn exponent(end: Option<i128>) -> u64
    requires { ForSome end (λ x. pos 0 ≤ℤ x) }
    ensures value { result ≡ option_map_or (λ z. min (unsigned_abs z) (23 * 2 ^ 32)) end (23 * 2 ^ 32) }
    ensures bound { result ≤ 23 * 2 ^ 32 }
{
    match end {
        Some(exponent) => exponent.min(i128::from(GREATEST)) as u64,
        None => GREATEST,
    }
}

/// The low end of a decay.
fn low_decay(exponent: u64) -> Option<i128>
    requires { exponent ≤ 23 * 2 ^ 32 }
    ensures { result ≡ Some (pos (exp_neg_low exponent)) }
{
    if exponent < GREATEST {
        Some(i128::from(units_of_low(exponent)))
    } else {
        Some(0)
    }
}

/// The high end of a decay.
fn high_decay(exponent: u64) -> Option<i128>
    requires { exponent ≤ 23 * 2 ^ 32 }
    ensures { result ≡ Some (pos (exp_neg_high exponent)) }
{
    if exponent < GREATEST {
        Some(i128::from(units_of_high(exponent)))
    } else {
        Some(1)
    }
}

/// 1/e to the power of an exponent in units of 2^-32, rounded down: where the estimate leaves one number only, that,
/// and else by the digits.
fn units_of_low(exponent: u64) -> u64
    requires { exponent ≤ 23 * 2 ^ 32 }
    ensures { result ≡ decay_low exponent / 2 ^ 28 }
{
    let estimate = decay_estimate(exponent);
    let least = estimate.saturating_sub(DECAY_EXCESS) >> 28;
    if (estimate + DECAY_MARGIN) >> 28 == least {
        least
    } else {
        decay_down(exponent) >> 28
    }
}

/// The same, rounded up.
fn units_of_high(exponent: u64) -> u64
    requires { exponent ≤ 23 * 2 ^ 32 }
    ensures { result ≡ div_ceil (decay_high exponent) (2 ^ 28) }
{
    let estimate = decay_estimate(exponent);
    let least = units_up(estimate);
    if units_up(estimate + DECAY_MARGIN) == least {
        least
    } else {
        units_up(decay_up(exponent))
    }
}

/// 1/e to the power of an exponent, in units of 2^-60, rounded down, digit by digit.
fn decay_down(exponent: u64) -> u64
    requires { exponent ≤ 23 * 2 ^ 32 }
    ensures { result ≡ decay_low exponent }
{
    let mut product = WHOLE_LOW[(exponent >> 32) as usize];
    let fraction = (exponent % (1 << 32)) as u32;
    for place in 0..32usize {
        product = shrunk_down(product, taken(LOSSES_LOW[place], fraction, place));
    }
    product
}

/// The same, rounded up.
fn decay_up(exponent: u64) -> u64
    requires { exponent ≤ 23 * 2 ^ 32 }
    ensures { result ≡ decay_high exponent }
{
    let mut product = WHOLE_HIGH[(exponent >> 32) as usize];
    let fraction = (exponent % (1 << 32)) as u32;
    for place in 0..32usize {
        product = shrunk_up(product, taken(LOSSES_HIGH[place], fraction, place));
    }
    product
}
