//! Ten to the power of a fraction, digit by digit. A power is a product of square roots of square roots, one for each
//! binary digit of its exponent. The roots stand in tables that are proved to be what they should be, by how far each
//! lies from 1, so a digit costs the upper half of one 64-bit product.

ghost use Rattle.std.specs.Prelude.{◌≡◌, ◌<◌, ◌+◌, ◌*◌, ◌/◌, ◌^◌};
ghost use Rattle.std.specs.Int.{div_ceil};
ghost use Rattle.fix_interval.specs.Ten.{fraction_low, fraction_high};

use crate::powers_of_ten::fraction_digits::taken;
use crate::powers_of_ten::growths::{GROWTHS_HIGH, GROWTHS_LOW};
use crate::powers_of_ten::starts::{STARTS_HIGH, STARTS_LOW};

/// All ones.
const ONES: u128 = u64::MAX as u128;

/// Ten to the power of a fraction of 2^-32nds, in units of 2^-60, rounded down. Its first eight digits are looked up,
/// and the others are taken one by one.
pub fn fraction_down(fraction: u32) -> u64
    ensures { result ≡ fraction_low fraction }
{
    let mut product = STARTS_LOW[(fraction >> 24) as usize];
    for block in 0..4usize {
        for digit in 0..6usize {
            let place = 6 * block + digit;
            product = grown_down(product, taken(GROWTHS_LOW[place], fraction, place + 8));
        }
    }
    product
}

/// The same, rounded up.
pub fn fraction_up(fraction: u32) -> u64
    ensures { result ≡ fraction_high fraction }
{
    let mut product = STARTS_HIGH[(fraction >> 24) as usize];
    for block in 0..4usize {
        for digit in 0..6usize {
            let place = 6 * block + digit;
            product = grown_up(product, taken(GROWTHS_HIGH[place], fraction, place + 8));
        }
    }
    product
}

/// A product and a factor above 1, multiplied and rounded down.
#[inline(always)]
pub(crate) fn grown_down(product: u64, growth: u64) -> u64
    requires { product + product * growth / 2 ^ 64 < 2 ^ 64 }
    ensures { result ≡ product + product * growth / 2 ^ 64 }
{
    product + ((u128::from(product) * u128::from(growth)) >> 64) as u64
}

/// A product and a factor above 1, multiplied and rounded up.
#[inline(always)]
fn grown_up(product: u64, growth: u64) -> u64
    requires { product + div_ceil (product * growth) (2 ^ 64) < 2 ^ 64 }
    ensures { result ≡ product + div_ceil (product * growth) (2 ^ 64) }
{
    let more = u128::from(product) * u128::from(growth);
    ((u128::from(product) * (1 << 64) + ONES + more) >> 64) as u64
}
