//! The digits of a logarithm, guessed and tested by powers of ten.

ghost use Rattle.std.specs.Prelude.{◌≡◌, ◌<◌, ◌≤◌, ◌+◌, ◌*◌, ◌^◌, IfSome};
ghost use Rattle.fix_interval.specs.Lg.{one_mantissa, digits_low, digits_high, rounded_up};

use crate::nodes::{INVERSES, LOGARITHMS};
use fix_interval::{high_estimate, low_estimate};

/// How far a power of ten must lie from a mantissa to be on the same side of all that its turns round to, in units of
/// 2^-60: 40 are the margin of its estimate, and 64 the most that a mantissa next to 1 makes of it.
const MARGIN: u64 = 104;

/// The least 64 bits of a number.
const WORD: u128 = u64::MAX as u128;

/// The common logarithm of 2, in units of 2^-64.
const DOUBLED: u64 = 5_553_023_288_523_357_132;

/// The coefficients of the series of a logarithm next to 1, without their signs, in units of 2^-64: the inverse of the
/// natural logarithm of ten, and a half, a third and so on of it.
const SERIES: [u64; 5] = [
    8_011_319_160_293_570_762,
    4_005_659_580_146_785_381,
    2_670_439_720_097_856_920,
    2_002_829_790_073_392_690,
    1_602_263_832_058_714_152,
];

/// The digits of a mantissa's logarithm, rounded down, and so one less than those rounded up; or nothing where the
/// powers of ten on both sides of the guess don't tell, or where it guesses the last of them.
pub(crate) fn tested_digits(mantissa: u64) -> Option<u32>
    requires least { one_mantissa ≤ mantissa }
    requires most { mantissa ≤ 10 * one_mantissa }
    ensures low { IfSome result (λ g. mantissa < 10 * one_mantissa → (digits_low mantissa).digits ≡ g) }
    ensures high { IfSome result (λ g. rounded_up (digits_high mantissa) ≡ g + 1) }
{
    let digits = guess(mantissa);
    let next = digits.checked_add(1)?;
    let units = 4 * mantissa;
    if high_estimate(digits) <= units - MARGIN && units + MARGIN <= low_estimate(next) {
        Some(digits)
    } else {
        None
    }
}

/// A guess of the 32 digits of a mantissa's logarithm, by the node below it and a series of what is left.
fn guess(mantissa: u64) -> u32 {
    let zeros = mantissa.leading_zeros();
    let normal = mantissa.wrapping_shl(zeros);
    let node = (normal >> 56) as usize % 128;
    let rest = ((u128::from(normal) * u128::from(INVERSES[node])) >> 62) & WORD;
    let rest = rest as u64;
    let [first, second, third, fourth, fifth] = SERIES;
    let series = fourth.wrapping_sub(upper(rest, fifth));
    let series = third.wrapping_sub(upper(rest, series));
    let series = second.wrapping_sub(upper(rest, series));
    let series = first.wrapping_sub(upper(rest, series));
    let doublings = 5u64.wrapping_sub(u64::from(zeros));
    let logarithm = LOGARITHMS[node]
        .wrapping_add(doublings.wrapping_mul(DOUBLED))
        .wrapping_add(upper(rest, series));
    (logarithm >> 32) as u32
}

/// The upper 64 bits of a product.
#[inline(always)]
fn upper(a: u64, b: u64) -> u64 {
    ((u128::from(a) * u128::from(b)) >> 64) as u64
}
