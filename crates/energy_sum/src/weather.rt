//! The meteorological correction (ISO 9613-2, clause 8).
ghost use Rattle.std.specs.Prelude.{◌≡◌, ◌^◌, pos, true};
ghost use Rattle.fix_interval.specs.Bounds.{AreBetween};
ghost use Rattle.fix_interval.specs.Tree.{Known, enc};
ghost use Rattle.energy_sum.specs.Weather.{correction, correction_from, IsLengthInPlan, IsCorrectable, IsWeatherCorrection};

use fix_interval::{Iv, div, exact, less, mul, pick, ratio, sub};

/// C_met in dB, by which the long-term level of a path is below its level downwind (ISO 9613-2, equations 21 and 22):
/// of a path of the plan length `dp` in metres, from a source `hs` mm to a receiver `hr` mm above ground, where C_0 is
/// `c0` hundredths of a dB.
#[tactic(auto, unfolding(crate::specs::Weather::correction))]
pub fn c_met(dp: Iv, hs: u32, hr: u32, c0: u16) -> Iv
    ensures value { result ≡ enc (correction (Known dp) hs hr c0) }
    ensures bounds { IsLengthInPlan dp → IsCorrectable hs hr c0 → IsWeatherCorrection result }
{
    if c0 == 0 && is_divisor(dp) {
        return exact(0);
    }
    let from = begins_beyond(hs, hr);
    let beyond = mul(ratio(c0.into(), 100), sub(exact(1), div(from, dp)));
    pick(less(from, dp), beyond, exact(0))
}

/// The plan length in metres up to which there is no correction.
fn begins_beyond(hs: u32, hr: u32) -> Iv
    ensures { result ≡ enc (correction_from hs hr) }
{
    ratio(10 * (i128::from(hs) + i128::from(hr)), 1000)
}

/// Whether a plan length is above 0 and at most 2^24 m, so that its quotients are bounded.
fn is_divisor(dp: Iv) -> bool
    ensures { result ≡ true → AreBetween (pos 1) (pos (2 ^ 56)) dp }
{
    0 < dp.lo() && dp.hi() <= 1 << 56
}
