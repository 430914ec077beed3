//! Geometrical divergence and atmospheric absorption (ISO 9613-2, 7.1 and 7.2), as enclosing intervals.
#![tactic(auto)]

ghost use Rattle.std.specs.Prelude.{◌≡◌, ◌*◌, ◌<◌, ◌^◌, pos, ◌≤ℤ◌, IsSomeAnd};
ghost use Rattle.fix_interval.specs.Bounds.{AreBetween};
ghost use Rattle.fix_interval.specs.Tree.{Known, enc};
ghost use Rattle.term_div_atm.specs.Terms.{at_least_one, divergence, absorption};

use enclose_log::lg;
use fix_interval::{Iv, add, exact, max, mul, over, times};

/// The attenuation by geometrical divergence in dB (ISO 9613-2, equation 7), at a distance in metres, which counts as
/// 1 m at least. Where the distance is from 0 m to 2^28 m, both ends are from 11 dB to 191 dB.
pub fn a_div(d: Iv) -> Iv
    ensures value { result ≡ enc (divergence (Known d)) }
    ensures bounds { AreBetween (pos 0) (pos (2 ^ 60)) d
        → AreBetween (pos (11 * 2 ^ 32)) (pos (191 * 2 ^ 32)) result }
{
    add(mul(exact(20), lg(one_metre_at_least(d))), exact(11))
}

/// The attenuation by the air in dB (ISO 9613-2, equation 8), at a distance in metres, which counts as 1 m at least, with
/// the coefficient of Table 2 in tenths of a decibel per kilometre. Where the distance is from 0 m to 2^28 m and the
/// coefficient below 4096, both ends are from 0 dB to 2^27 dB.
#[inline(always)]
pub fn a_atm(d: Iv, alpha10: u32) -> Iv
    ensures value { result ≡ enc (absorption (Known d) alpha10) }
    ensures bounds { AreBetween (pos 0) (pos (2 ^ 60)) d → alpha10 < 4096
        → AreBetween (pos 0) (pos (2 ^ 59)) result }
{
    over(times(one_metre_at_least(d), alpha10), 10_000)
}

/// A distance in metres, which counts as 1 m at least.
fn one_metre_at_least(d: Iv) -> Iv
    ensures value { result ≡ enc (at_least_one (Known d)) }
    ensures low { IsSomeAnd result.lo (λ z. pos (2 ^ 32) ≤ℤ z) }
{
    max(exact(1), d)
}
