//! Ten to the power of an interval.

ghost use Rattle.std.specs.Prelude.{◌≡◌, ◌<◌, ◌≤◌, ◌*◌, ◌/◌, ◌^◌, ◌≤ℤ◌, IsSomeAnd, IfSome, pos, Some};
ghost use Rattle.std.specs.Option.{option_map_or};
ghost use Rattle.std.specs.Int.{div_ceil};
ghost use Rattle.fix_interval.specs.Interval.{IsInterval};
ghost use Rattle.fix_interval.specs.Ten.{ten_of, raised_low, raised_high, fraction_low, fraction_high};
ghost use Rattle.enclose_exp.specs.inner.Exponent.{counted, low_value, high_value};

use fix_interval::{
    Iv, POWER_MARGIN, fraction_down, fraction_up, high_estimate, low_estimate, power_of_ten,
};

/// The exponent 20, from which on the low end stays and the high end is unbounded.
const GREATEST: i128 = 20 << 32;

/// That exponent as it is counted, from -20 on.
const GREATEST_COUNTED: u64 = 40 << 32;

/// The exponent -19 as it is counted: below it a power is less than the least end above 0.
const LEAST_COUNTED: u64 = 1 << 32;

/// The whole exponent 7 as it is counted. From there on the bounds of an estimate never meet.
const FROM_DIGITS: u32 = 27;

/// Ten to the power of an interval, end by end: the low end rounded down and the high end rounded up to
/// 2^-32. ISO 9613-2 adds levels by it, in equation (5). The low end is bounded and not below 0;
/// the high end is above 0, and is unbounded where the exponent may reach 20.
pub fn ten(a: Iv) -> Iv
    ensures value { result ≡ ten_of a }
    ensures interval { IsInterval result }
    ensures low { IsSomeAnd result.lo (λ z. pos 0 ≤ℤ z) }
    ensures high { IfSome result.hi (λ z. pos 1 ≤ℤ z) }
{
    let low = exponent(a.low(), 0);
    let high = exponent(a.high(), GREATEST_COUNTED);
    Iv::of_ends(low_power(low), high_power(high))
}

/// The exponent of an end as it is counted, from -20 on; `unbounded` where there is no end.
fn exponent(end: Option<i128>, unbounded: u64) -> u64
    requires { unbounded ≤ 40 * 2 ^ 32 }
    ensures value { result ≡ option_map_or counted end unbounded }
    ensures bound { result ≤ 40 * 2 ^ 32 }
{
    match end {
        Some(exponent) => (exponent.clamp(-GREATEST, GREATEST) + GREATEST) as u64,
        None => unbounded,
    }
}

/// The low end of a power.
fn low_power(exponent: u64) -> Option<i128>
    requires { exponent ≤ 40 * 2 ^ 32 }
    ensures { result ≡ Some (pos (low_value exponent)) }
{
    if exponent >= GREATEST_COUNTED {
        Some(100_000_000_000_000_000_000 << 32)
    } else if exponent < LEAST_COUNTED {
        Some(0)
    } else {
        Some(power_down(exponent) as i128)
    }
}

/// The high end of a power.
fn high_power(exponent: u64) -> Option<i128>
    requires { exponent ≤ 40 * 2 ^ 32 }
    ensures { result ≡ high_value exponent }
{
    if exponent >= GREATEST_COUNTED {
        None
    } else if exponent < LEAST_COUNTED {
        Some(1)
    } else {
        Some(power_up(exponent) as i128)
    }
}

/// The power of the fraction times that of the whole part, rounded down. A negative power is divided after it is in
/// units of 2^-32, which is the same, so that its fraction is decided without the division.
fn power_down(exponent: u64) -> u128
    requires above { 2 ^ 32 ≤ exponent }
    requires below { exponent < 40 * 2 ^ 32 }
    ensures value { result ≡ raised_low exponent }
    ensures bound { result < 2 ^ 100 }
{
    let whole = (exponent >> 32) as u32;
    let fraction = (exponent % (1 << 32)) as u32;
    if whole < 20 {
        u128::from((scaled_down(fraction, 1) as u64) / small_power_of_ten(20 - whole))
    } else if whole < FROM_DIGITS {
        scaled_down(fraction, small_power_of_ten(whole - 20))
    } else {
        units_down(fraction_down(fraction), small_power_of_ten(whole - 20))
    }
}

/// The same, rounded up.
fn power_up(exponent: u64) -> u128
    requires above { 2 ^ 32 ≤ exponent }
    requires below { exponent < 40 * 2 ^ 32 }
    ensures value { result ≡ raised_high exponent }
    ensures bound { result < 2 ^ 101 }
{
    let whole = (exponent >> 32) as u32;
    let fraction = (exponent % (1 << 32)) as u32;
    if whole < 20 {
        u128::from((scaled_up(fraction, 1) as u64).div_ceil(small_power_of_ten(20 - whole)))
    } else if whole < FROM_DIGITS {
        scaled_up(fraction, small_power_of_ten(whole - 20))
    } else {
        units_up(fraction_up(fraction), small_power_of_ten(whole - 20))
    }
}

/// The power of a fraction times a factor, rounded down to 2^-32: where the estimate leaves one number only, that,
/// and else by the digits.
#[inline(always)]
fn scaled_down(fraction: u32, factor: u64) -> u128
    ensures { result ≡ fraction_low fraction * factor / 2 ^ 28 }
{
    let estimate = low_estimate(fraction);
    let least = units_down(estimate, factor);
    if units_down(estimate + POWER_MARGIN, factor) == least {
        least
    } else {
        units_down(fraction_down(fraction), factor)
    }
}

/// The same, rounded up.
#[inline(always)]
fn scaled_up(fraction: u32, factor: u64) -> u128
    ensures { result ≡ div_ceil (fraction_high fraction * factor) (2 ^ 28) }
{
    let estimate = high_estimate(fraction);
    let least = units_up(estimate, factor);
    if units_up(estimate + POWER_MARGIN, factor) == least {
        least
    } else {
        units_up(fraction_up(fraction), factor)
    }
}

/// A product in units of 2^-60 times a factor, in units of 2^-32, rounded down.
#[inline(always)]
fn units_down(product: u64, factor: u64) -> u128
    ensures { result ≡ product * factor / 2 ^ 28 }
{
    (u128::from(product) * u128::from(factor)) >> 28
}

/// The same, rounded up.
#[inline(always)]
fn units_up(product: u64, factor: u64) -> u128
    ensures { result ≡ div_ceil (product * factor) (2 ^ 28) }
{
    let product = u128::from(product) * u128::from(factor);
    (product + ((1 << 28) - 1)) >> 28
}

/// 10 to a whole power below 20, which fits 64 bits.
fn small_power_of_ten(exponent: u32) -> u64
    requires { exponent < 20 }
    ensures value { result ≡ 10 ^ exponent }
    ensures positive { 0 < result }
{
    power_of_ten(exponent) as u64
}
