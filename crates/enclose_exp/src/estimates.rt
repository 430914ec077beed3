//! An estimate of a decay, by a factor for six digits of its exponent in place of one for each. Such a factor is the
//! exact product of the digits' roots, rounded down, so the decay lies as far from its estimate as the roundings of its
//! digits add up to.

ghost use Rattle.std.specs.Prelude.{◌≤◌, ◌+◌, ◌*◌, ◌^◌};
ghost use Rattle.fix_interval.specs.ExpNeg.{decay_low, decay_high};

use crate::losses::{EIGHT_LOSSES, SIX_LOSSES};
use crate::product::shrunk_down;
use crate::tables::WHOLE_LOW;
use fix_interval::six_digits;

/// The most that an estimate of a decay lies above the decay rounded down, in units of 2^-60: 1 for each digit.
pub(crate) const DECAY_EXCESS: u64 = 32;

/// The most that a decay lies above its estimate, in units of 2^-60: 24 after the first eight digits, 20 for each
/// six, where the roots rounded up take most of it.
pub(crate) const DECAY_MARGIN: u64 = 104;

/// An estimate of 1/e to the power of an exponent, in units of 2^-60, for both roundings of it: their factors lie so
/// near each other that one table serves.
pub(crate) fn decay_estimate(exponent: u64) -> u64
    requires { exponent ≤ 23 * 2 ^ 32 }
    ensures low_least { result ≤ decay_low exponent + 32 }
    ensures low_most { decay_low exponent ≤ result + 104 }
    ensures high_least { result ≤ decay_high exponent }
    ensures high_most { decay_high exponent ≤ result + 104 }
    ensures room { result ≤ 2 ^ 60 }
{
    let fraction = (exponent % (1 << 32)) as u32;
    let whole = WHOLE_LOW[(exponent >> 32) as usize];
    let mut product = shrunk_down(whole, EIGHT_LOSSES[(fraction >> 24) as usize]);
    for block in 0..4u32 {
        product = shrunk_down(product, SIX_LOSSES[six_digits(fraction, block)]);
    }
    product
}
