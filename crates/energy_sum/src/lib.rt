//! Energies of levels, their exact sums, levels of sums (ISO 9613-2, equation 5) and the meteorological correction
//! (clause 8), as enclosing intervals.
#![tactic(auto)]

mod laws;
mod sum;
mod weather;

ghost use Rattle.std.specs.Prelude.{◌≡◌, ◌*◌, ◌^◌, pos, neg_ℤ, ◌≤ℤ◌, IsSomeAnd};
ghost use Rattle.fix_interval.specs.Bounds.{AreBetween};
ghost use Rattle.fix_interval.specs.Interval.{IsInterval};
ghost use Rattle.fix_interval.specs.Tree.{Known, Const, Max, enc};
ghost use Rattle.energy_sum.specs.Energies.{energy_form, level_form};

use enclose_exp::ten;
use enclose_log::lg;
use fix_interval::{Iv, exact, max, mul, over};
pub use laws::every_formula_is_enclosed;
pub use sum::Sum;
pub use weather::c_met;

/// The energy of a level in dB, as a ratio: 10 to the power of a tenth of it (ISO 9613-2, equation 5). It isn't below 0.
/// Where the level is from -2^29 dB to 189 dB, the energy is at most 2^96 units of 2^-32.
pub fn energy(level: Iv) -> Iv
    ensures value { result ≡ enc (energy_form (Known level)) }
    ensures interval { IsInterval result }
    ensures low { IsSomeAnd result.lo (λ z. pos 0 ≤ℤ z) }
    ensures bounds { AreBetween (neg_ℤ (pos (2 ^ 61))) (pos (189 * 2 ^ 32)) level
        → AreBetween (pos 0) (pos (2 ^ 96)) result }
{
    ten(over(level, 10))
}

/// The level in dB of a sum of energies: ten times its logarithm, and 0 dB where the sum is below 1 (ISO 9613-2,
/// equation 5). Both ends are from 0 dB to 290 dB.
pub fn level(sum: &Sum) -> Iv
    ensures value { result ≡ enc (level_form (Known sum.now)) }
    ensures bounds { AreBetween (pos 0) (pos (290 * 2 ^ 32)) result }
{
    mul(exact(10), lg(one_at_least(sum.interval())))
}

/// An energy, which counts as 1 at least.
fn one_at_least(energy: Iv) -> Iv
    ensures value { result ≡ enc (Max (Const (pos 1) 1) (Known energy)) }
    ensures low { IsSomeAnd result.lo (λ z. pos (2 ^ 32) ≤ℤ z) }
{
    max(exact(1), energy)
}
