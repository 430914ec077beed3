//! What is known of a cell from the interval of the level in it.
ghost use Rattle.std.specs.Prelude.{◌≡◌, ◌≤◌, ◌^◌, pos, ◌*ℤ◌, unsigned_abs};
ghost use Rattle.fix_interval.specs.Units.{unit};
ghost use Rattle.level_contours.specs.Comparing.{cell_of, reaches as reaches_of};

use cell_loops::Cell;
use fix_interval::Iv;

/// How many units of an interval make 1 dB.
const UNITS: i128 = 1 << 32;

/// An end so far out that it is beyond every level of 32 bits.
const FAR: i128 = 1 << 64;

/// What is known of a cell in which the level in dB lies in an interval: whether it surely reaches a level in 0.01 dB, or
/// surely stays below.
pub fn cell(total: Iv, level: i32) -> Cell
    ensures { result ≡ cell_of total level }
{
    if let Some(low) = total.low() {
        if reaches(low, level) {
            return Cell::Above;
        }
    }
    match total.high() {
        Some(high) if !reaches(high, level) => Cell::Below,
        _ => Cell::Unsure,
    }
}

/// Whether an end in units of 2^-32 dB reaches a level in 0.01 dB.
fn reaches(end: i128, level: i32) -> bool
    ensures { result ≡ reaches_of end level }
{
    // The hundredfold of an end that is far out may need more than 128 bits.
    if end >= FAR {
        return true;
    }
    if end <= -FAR {
        return false;
    }
    hundredfold(end) >= line(level)
}

fn hundredfold(end: i128) -> i128
    requires { unsigned_abs end ≤ 2 ^ 64 }
    ensures { result ≡ pos 100 *ℤ end }
{
    100 * end
}

/// A level in 0.01 dB, in units of 2^-32 of 0.01 dB.
#[tactic(auto, unfolding(fix_interval::specs::Units::unit))]
fn line(level: i32) -> i128
    ensures { result ≡ level *ℤ pos unit }
{
    i128::from(level) * UNITS
}
