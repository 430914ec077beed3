//! How the ends of levels are rounded.
ghost use Rattle.std.specs.Prelude.{◌≡◌, ◌<◌, ◌^◌};
ghost use Rattle.map_text.specs.Rounding.{low_hundredths, high_hundredths};

/// How many units make 1 dB.
const UNIT: u128 = 1 << 32;

/// A low end in 0.01 dB, rounded down.
#[tactic(auto, unfolding(fix_interval::specs::Units::unit))]
pub(crate) fn low_hundredths(units: u64) -> u64
    ensures { result ≡ low_hundredths units }
{
    (100 * u128::from(units) / UNIT) as u64
}

/// A high end in 0.01 dB, rounded up.
#[tactic(auto, unfolding(fix_interval::specs::Units::unit))]
pub(crate) fn high_hundredths(units: u64) -> u64
    ensures { result ≡ high_hundredths units }
{
    (100 * u128::from(units)).div_ceil(UNIT) as u64
}
