//! The levels that a receiver has from several sources.
ghost use Rattle.std.specs.Prelude.{◌≡◌};
ghost use Rattle.path_calc.specs.Bundles.{CanBeAdded};
ghost use Rattle.path_calc.specs.Levels.{IsLevel, AreLevels, total_of, band_level_of, levels_of};

use crate::bundles::Bundle;
use crate::totals::results::Levels;
use energy_sum::{Sum, level};
use fix_interval::Iv;
use scene_geom::Band;

/// The levels that a receiver has from these bundles, 0 dB from none.
pub fn levels(bundles: &[Bundle]) -> Levels
    requires { CanBeAdded bundles.now }
    ensures value { result ≡ levels_of bundles.now }
    ensures range { AreLevels result }
{
    Levels {
        total: total_level(bundles),
        bands: Band::of_each(|band| band_level(bundles, band)),
    }
}

/// The A-weighted long-term level in dB that a receiver has from these bundles, 0 dB from none: what `levels` gives
/// without the bands.
pub fn total_level(bundles: &[Bundle]) -> Iv
    requires { CanBeAdded bundles.now }
    ensures value { result ≡ total_of bundles.now }
    ensures range { IsLevel result }
{
    let mut sum = Sum::zero();
    for bundle in bundles {
        sum.add(bundle.long_energy());
    }
    level(&sum)
}

/// The level in a band.
fn band_level(bundles: &[Bundle], band: Band) -> Iv
    requires { CanBeAdded bundles.now }
    ensures value { result ≡ band_level_of bundles.now band }
    ensures range { IsLevel result }
{
    let mut sum = Sum::zero();
    for bundle in bundles {
        sum.add(bundle.energy_in(band));
    }
    level(&sum)
}
