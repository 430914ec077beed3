//! Sound power levels.
ghost use Rattle.std.specs.Prelude.{◌≡◌, IfOk, IsTrue, pos, neg_ℤ, ◌≤ℤ◌};
ghost use Rattle.std.specs.List.{list_all};
ghost use Rattle.scene_parts.specs.Answers.{each};
ghost use Rattle.scene_parts.specs.Parts.{is_power_within};
ghost use Rattle.scene_parts.specs.Checking.{power_within, directivity_of};

use crate::checks::ranges::within;
use crate::faults::PartFault;
use crate::kinds::Field;

/// The levels of the octave bands from 63 Hz to 8 kHz, in 0.01 dB, each from `low` to `high`, or `OutOfRange` of the
/// first outside.
pub fn powers(low: i32, high: i32, lw: [Option<i64>; 8]) -> Result<[Option<i32>; 8], PartFault>
    ensures value { result ≡ each (power_within low high) lw }
    ensures range { IfOk result (λ powers. IsTrue (list_all (is_power_within low high) powers)) }
{
    let mut powers = [None; 8];
    for band in 0..8 {
        powers[band] = power(low, high, lw[band])?;
    }
    Ok(powers)
}

#[tactic(auto, unfolding(crate::specs::Checking::power_within))]
fn power(low: i32, high: i32, level: Option<i64>) -> Result<Option<i32>, PartFault>
    ensures { result ≡ power_within low high level }
{
    match level {
        None => Ok(None),
        Some(level) => Ok(Some(within(Field::Lw, i64::from(low), i64::from(high), level)? as i32)),
    }
}

/// A directivity correction from -30 dB to 20 dB, in 0.01 dB, or `OutOfRange`.
#[tactic(auto, unfolding(crate::specs::Checking::directivity_of))]
pub fn directivity(dc: i64) -> Result<i32, PartFault>
    ensures value { result ≡ directivity_of dc }
    ensures low { IfOk result (λ dc. neg_ℤ (pos 3000) ≤ℤ dc) }
    ensures high { IfOk result (λ dc. dc ≤ℤ pos 2000) }
{
    Ok(within(Field::Dc, -3000, 2000, dc)? as i32)
}
