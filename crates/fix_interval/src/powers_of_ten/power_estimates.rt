//! Estimates of ten to the power of a fraction, by a factor for six digits in place of one for each. Such a factor is the
//! exact product of the digits' roots, rounded down, so the power lies as far from its estimate as the roundings of its
//! digits add up to.

ghost use Rattle.std.specs.Prelude.{◌<◌, ◌≤◌, ◌+◌, ◌^◌};
ghost use Rattle.fix_interval.specs.Ten.{fraction_low, fraction_high};

use crate::powers_of_ten::fraction_digits::six_digits;
use crate::powers_of_ten::fraction_powers::grown_down;
use crate::powers_of_ten::growths::{SIX_GROWTHS_HIGH, SIX_GROWTHS_LOW};
use crate::powers_of_ten::starts::{STARTS_HIGH, STARTS_LOW};

/// The most that a power of ten lies above its estimate, in units of 2^-60: 4 times 7 and 3, or 4 times 9.
pub const POWER_MARGIN: u64 = 40;

/// An estimate of ten to the power of a fraction, rounded down, in units of 2^-60. In six digits the value loses up to
/// 6 units, which the factors that follow make 7, and the estimate up to 3. So 28 units off, it is never above.
#[inline]
pub fn low_estimate(fraction: u32) -> u64
    ensures least { result ≤ fraction_low fraction }
    ensures most { fraction_low fraction ≤ result + 40 }
    ensures room { result + 40 < 2 ^ 64 }
{
    let mut product = STARTS_LOW[(fraction >> 24) as usize];
    for block in 0..4u32 {
        product = grown_down(product, SIX_GROWTHS_LOW[six_digits(fraction, block)]);
    }
    product - 28
}

/// An estimate of ten to the power of a fraction, rounded up, in units of 2^-60. In six digits the value gains up to 6
/// units, which the factors that follow make 7, and the estimate loses up to 2: it is never above.
#[inline]
pub fn high_estimate(fraction: u32) -> u64
    ensures least { result ≤ fraction_high fraction }
    ensures most { fraction_high fraction ≤ result + 40 }
    ensures room { result + 40 < 2 ^ 64 }
{
    let mut product = STARTS_HIGH[(fraction >> 24) as usize];
    for block in 0..4u32 {
        product = grown_down(product, SIX_GROWTHS_HIGH[six_digits(fraction, block)]);
    }
    product
}
