//! Whether K_met vanishes, told in whole numbers.
//!
//! The exponent of K_met is 23 or more where d_ss d_sr d / 2 z is at least 46,000². Twice that is a little less than 2^32, so
//! that z in units of 2^-32 m is compared with the product of the distances in whole metres, and nothing is divided.

ghost use Rattle.std.specs.Prelude.{◌≡◌, ◌<◌, ◌≤◌, ◌*◌, ◌^◌, pos, Some, IsTrue};
ghost use Rattle.fix_interval.specs.Bounds.{AreBetween};
ghost use Rattle.fix_interval.specs.Tree.{Known, enc};
ghost use Rattle.term_barrier.specs.Diffraction as form;

use crate::pair::reach::lies_between;
use fix_interval::Iv;

/// The longest distance that counts, 2^14 m, in units of 2^-32 m.
const LONGEST: i128 = 1 << 46;

/// The least z that counts, in the same units: where it is less the root in the exponent may be unbounded.
const LEAST_DIFFERENCE: i128 = 1 << 11;

/// Whether it is sure that K_met is less than the least end above 0.
pub(crate) fn vanishes(d_ss: Iv, d_sr: Iv, d: Iv, z: Iv) -> bool
    ensures { IsTrue result → enc (form.k_met (Known d_ss) (Known d_sr) (Known d) (Known z))
        ≡ record { lo = Some (pos 0); hi = Some (pos 1) } }
{
    let product = whole_metres(d_ss) * whole_metres(d_sr) * whole_metres(d);
    lies_between(z, LEAST_DIFFERENCE, product.into())
}

/// The whole metres of a distance, rounded down, or 0 where it doesn't count.
fn whole_metres(distance: Iv) -> u64
    ensures known { 0 < result → AreBetween (pos (result * 2 ^ 32)) (pos (2 ^ 46)) distance }
    ensures bound { result ≤ 2 ^ 14 }
{
    if lies_between(distance, 0, LONGEST) {
        (distance.lo() >> 32) as u64
    } else {
        0
    }
}
