//! Square roots of intervals.

pub(crate) mod hypotenuse;
pub(crate) mod square_root;

ghost use Rattle.std.specs.Prelude.{◌≡◌, ◌<◌, ◌^◌, ◌*◌};
ghost use Rattle.fix_interval.specs.Units.{unit};
ghost use Rattle.fix_interval.specs.Round.{floor_root};
ghost use Rattle.fix_interval.specs.Values.{low_radicand, root_of_high, is_below_zero, root_of};

use crate::iv::Iv;
use crate::roots::square_root::{root_down, root_up};

/// How many units are one, 2^32.
const UNIT: u128 = 1 << 32;

/// Roots are taken of ends below this number of units, 2^95.
const RADICAND_LIMIT: u128 = 1 << 95;

/// The square root of a quantity. A low end below 0 counts as 0, and one of 2^95 or more as 2^95 - 1; a high
/// end of 2^95 or more gives an unbounded one. Of a quantity wholly below 0 nothing is known.
pub fn root(a: Iv) -> Iv
    ensures { result ≡ root_of a }
{
    if below_zero(a.high()) {
        Iv::ALL
    } else {
        let low = low_root(a.low());
        Iv::of_ends(Some(i128::from(low)), high_root(a.high(), low))
    }
}

fn below_zero(high: Option<i128>) -> bool
    ensures { result ≡ is_below_zero high }
{
    high.is_some_and(|end| end < 0)
}

/// The root of a low end, rounded down.
fn low_root(low: Option<i128>) -> u64
    ensures { result ≡ floor_root (low_radicand low * unit) }
{
    root_down(radicand(low) * UNIT)
}

/// What the root of a low end is taken of.
fn radicand(low: Option<i128>) -> u128
    ensures value { result ≡ low_radicand low }
    ensures limited { result < 2 ^ 95 }
{
    match low {
        Some(end) if 0 < end => (end as u128).min(RADICAND_LIMIT - 1),
        _ => 0,
    }
}

/// The root of a high end, rounded up. The low end's root is mostly near it.
fn high_root(high: Option<i128>, low_root: u64) -> Option<i128>
    ensures { result ≡ root_of_high high }
{
    match high {
        Some(end) if 0 <= end && (end as u128) < RADICAND_LIMIT => Some(
            root_up(end as u128 * UNIT, low_root) as i128,
        ),
        _ => None,
    }
}
