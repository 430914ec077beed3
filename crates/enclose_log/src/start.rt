//! The decade of an end, and its mantissa before the first digit.

ghost use Rattle.std.specs.Prelude.{◌≡◌, ◌<◌, ◌≤◌, ◌+◌, ◌*◌, ◌/◌, ◌^◌};
ghost use Rattle.std.specs.Int.{div_ceil};
ghost use Rattle.enclose_log.specs.inner.Decade.{IsDecade};
ghost use Rattle.fix_interval.specs.Lg.{one_mantissa, decade_of, mantissa_low, mantissa_high};

use fix_interval::power_of_ten;

/// The least 64 bits of a number.
const WORD: u128 = u64::MAX as u128;

/// The inverse of each of the first powers of ten, in units that give it 64 bits.
const INVERSES: [u64; 10] = [
    18_446_744_073_709_551_615,
    14_757_395_258_967_641_292,
    11_805_916_207_174_113_034,
    9_444_732_965_739_290_427,
    15_111_572_745_182_864_683,
    12_089_258_196_146_291_747,
    9_671_406_556_917_033_397,
    15_474_250_491_067_253_436,
    12_379_400_392_853_802_748,
    9_903_520_314_283_042_199,
];

/// Where an end starts.
#[derive(Clone, Copy, Drop)]
pub(crate) struct Start {
    /// The decade, counted from -10.
    pub(crate) decade: u32,
    /// The mantissa in units of 2^-58, rounded down.
    pub(crate) low: u64,
    /// The mantissa rounded up.
    pub(crate) high: u64,
}

impl Start {
    /// The start of the end `end`, which is above 0, in units of 2^-32.
    pub(crate) fn of(end: u128) -> Start
        requires positive { 0 < end }
        requires below { end < 2 ^ 126 }
        ensures decade { result.decade ≡ decade_of end }
        ensures decade_bound { result.decade < 39 }
        ensures low { result.low ≡ mantissa_low end }
        ensures low_least { one_mantissa ≤ result.low }
        ensures low_below { result.low < 10 * one_mantissa }
        ensures high { result.high ≡ mantissa_high end }
        ensures high_least { one_mantissa ≤ result.high }
        ensures high_most { result.high ≤ 10 * one_mantissa }
    {
        let decade = decade(end);
        let (low, high) = mantissas(end, decade);
        Start { decade, low, high }
    }
}

/// The decade of an end, counted from -10.
fn decade(end: u128) -> u32
    requires positive { 0 < end }
    requires below { end < 2 ^ 126 }
    ensures { IsDecade end result }
{
    if end >> 32 == 0 {
        ((end * power_of_ten(10)) >> 32).ilog10()
    } else {
        10 + (end >> 32).ilog10()
    }
}

/// The mantissa of an end of this decade, rounded down and rounded up. That of an end below 1 is whole.
fn mantissas(end: u128, decade: u32) -> (u64, u64)
    requires positive { 0 < end }
    requires below { end < 2 ^ 126 }
    requires decade { IsDecade end decade }
    ensures low { result.0 ≡ 10 ^ 10 * end * 2 ^ 26 / 10 ^ decade }
    ensures high { result.1 ≡ div_ceil (10 ^ 10 * end * 2 ^ 26) (10 ^ decade) }
{
    if decade < 10 {
        let whole = (end * power_of_ten(10 - decade) * (1 << 26)) as u64;
        return (whole, whole);
    }
    let power = power_of_ten(decade - 10);
    if end >> 64 == 0 {
        narrow_quotient(end as u64, power as u64, decade - 10)
    } else {
        wide_quotient(end, power)
    }
}

/// `end * 2^26 / power`, rounded down and rounded up, where the end fits 64 bits. The power of ten has this exponent.
fn narrow_quotient(end: u64, power: u64, exponent: u32) -> (u64, u64)
    requires positive { 0 < power }
    requires power { power < 2 ^ 38 }
    requires end { end < 10 * 2 ^ 32 * power }
    requires exponent { exponent < 10 }
    ensures low { result.0 ≡ end * 2 ^ 26 / power }
    ensures high { result.1 ≡ div_ceil (end * 2 ^ 26) power }
{
    let number = u128::from(end) * (1 << 26);
    let low = quotient(number, power, estimate(end, power, exponent));
    if u128::from(low) * u128::from(power) == number {
        (low, low)
    } else {
        (low, low + 1)
    }
}

/// The quotient of a number, of which `near` is an estimate. Where neither that nor the next number is the quotient, it
/// is divided in full, so that nothing rests on the estimate.
fn quotient(number: u128, power: u64, near: u64) -> u64
    requires positive { 0 < power }
    requires number { number < 10 * 2 ^ 58 * power }
    ensures { result ≡ number / power }
{
    let divisor = u128::from(power);
    match number.checked_sub(u128::from(near) * divisor) {
        Some(rest) if rest < divisor => near,
        Some(rest) if rest < 2 * divisor => near + 1,
        _ => (number / divisor) as u64,
    }
}

/// A number that is `end * 2^26 / power` or one less, by the inverse of the power of ten, which has this exponent.
fn estimate(end: u64, power: u64, exponent: u32) -> u64
    requires positive { 0 < power }
    requires exponent { exponent < 10 }
{
    let product = u128::from(end) * u128::from(INVERSES[exponent as usize]);
    ((product >> (101 - power.leading_zeros())) & WORD) as u64
}

/// `end * 2^26 / power`, rounded down and rounded up, where the product needs more than 128 bits.
fn wide_quotient(end: u128, power: u128) -> (u64, u64)
    requires positive { 0 < power }
    requires power { power < 2 ^ 102 }
    requires end { end < 10 * 2 ^ 32 * power }
    ensures low { result.0 ≡ end * 2 ^ 26 / power }
    ensures high { result.1 ≡ div_ceil (end * 2 ^ 26) power }
{
    let rest = end % power * (1 << 26);
    let low = (end / power * (1 << 26) + rest / power) as u64;
    (low, low + u64::from(rest % power != 0))
}
