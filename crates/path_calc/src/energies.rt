//! The energies that a receiver has from a source.
ghost use Rattle.std.specs.Prelude.{◌≡◌, ◌*◌, map, All};
ghost use Rattle.fix_interval.specs.Tree.{Known, enc};
ghost use Rattle.scene_geom.specs.Bands.{all_bands};
ghost use Rattle.path_calc.specs.Energies.{sum_form};
ghost use Rattle.path_calc.specs.Bundles.{bundle_of};
ghost use Rattle.path_calc.specs.Prepared.{prepared_of};
ghost use Rattle.path_calc.specs.inner.Ranges.{AreInRange, IsSumOf, most_sounds};
ghost use Rattle.path_calc.specs.inner.Hearing.{ArePaths, energy_after, long_energy_after};
ghost use Rattle.scene_book.specs.Book.{Book};
ghost use Rattle.scene_parts.specs.Parts.{Source, Receiver};

pub(crate) mod hearing;
pub(crate) mod paths;
pub(crate) mod small_sums;
pub(crate) mod weights;

use crate::energies::hearing::{Heard, heard_in};
use crate::energies::paths::Paths;
use crate::energies::small_sums::plus;
use crate::prepared::PreparedSource;
use fix_interval::{Iv, exact};
use scene_geom::Band;

/// The energies that a receiver has from a source: in each band, and the long-term energy over all.
#[derive(Drop)]
pub(crate) struct Energies {
    pub(crate) bands: [Iv; 8],
    pub(crate) long: Iv,
}

/// The energies that a receiver has from a source, at the end of all paths between them. What the bands share is calculated
/// once.
pub(crate) fn path_energies(paths: &Paths, from: &PreparedSource) -> Energies
    requires { AreInRange paths.now }
    ensures bands { (book : Book) (s : Source) (r : Receiver) → ArePaths paths.now book s r
        → from.now ≡ prepared_of s → result.bands ≡ (bundle_of book s r).energy }
    ensures long { (book : Book) (s : Source) (r : Receiver) → ArePaths paths.now book s r
        → from.now ≡ prepared_of s → result.long ≡ (bundle_of book s r).long }
    ensures bands_bounds { All (IsSumOf most_sounds) result.bands }
    ensures long_bounds { IsSumOf (8 * most_sounds) result.long }
{
    let heard = heard(paths, from);
    Energies {
        bands: bands_of(&heard),
        long: long_sum(&heard),
    }
}

/// What is heard of a source at the end of all paths, in each band.
fn heard(paths: &Paths, source: &PreparedSource) -> [Heard; 8]
    requires { AreInRange paths.now }
    ensures energies { map (λ h. h.energy) result
        ≡ map (energy_after paths.now source.now) all_bands }
    ensures longs { map (λ h. h.long) result
        ≡ map (long_energy_after paths.now source.now) all_bands }
    ensures energy_bounds { All (λ h. IsSumOf most_sounds h.energy) result }
    ensures long_bounds { All (λ h. IsSumOf most_sounds h.long) result }
{
    Band::of_each(|band| heard_in(paths, source, band))
}

/// The energies in the bands.
fn bands_of(heard: &[Heard; 8]) -> [Iv; 8]
    ensures { result ≡ map (λ h. h.energy) heard.now }
{
    [
        heard[0].energy,
        heard[1].energy,
        heard[2].energy,
        heard[3].energy,
        heard[4].energy,
        heard[5].energy,
        heard[6].energy,
        heard[7].energy,
    ]
}

/// The sum of long-term energies.
fn long_sum(bands: &[Heard; 8]) -> Iv
    requires { All (λ h. IsSumOf most_sounds h.long) bands.now }
    ensures value { result ≡ enc (sum_form (map (λ h. Known h.long) bands.now)) }
    ensures bounds { IsSumOf (8 * most_sounds) result }
{
    let mut sum = exact(0);
    for heard in bands {
        sum = plus(sum, heard.long);
    }
    sum
}
