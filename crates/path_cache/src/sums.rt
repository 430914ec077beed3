//! The sums of the energies of a row's bundles: a bundle more is added, one less is taken off, and no other is looked at.
ghost use Rattle.std.specs.Prelude.{◌≡◌, ℕ, ◌+◌, ◌-◌, ◌<◌, ◌≤◌, pos, List, [], ◌∷◌, ◌++◌, length, drop, All, Some, slice_index_or};
ghost use Rattle.fix_interval.specs.Interval.{Interval, IsInterval};
ghost use Rattle.fix_interval.specs.Values.{add_of};
ghost use Rattle.energy_sum.specs.Sums.{units_of};
ghost use Rattle.path_calc.specs.Bundles.{Bundle as BundleSeen, IsEnergy, few_bundles};
ghost use Rattle.path_calc.specs.Levels.{levels_of, level_in};
ghost use Rattle.scene_geom.specs.declared.band.Band.{Band};
ghost use Rattle.path_cache.specs.Sums.{Fits, level_of_sum, band_level_of_sums};
ghost use Rattle.path_cache.specs.inner.TakingOff.{HasRoom, HaveRoom, IsPartOf, ArePartOf, FitFrom};

use energy_sum::{Sum, level};
use fix_interval::Iv;
use path_calc::{Bundle, Levels};

/// The sums of the energies of several bundles, as ratios: of their A-weighted long-term energies, and of their energies
/// in each octave band, which aren't weighted.
#[derive(Clone, Copy, Drop)]
pub struct RowSums {
    pub total: Sum,
    pub bands: [Sum; 8],
}

impl RowSums {
    /// The sums of no bundles.
    pub fn zero() -> RowSums
        ensures { Fits result [] }
    {
        RowSums {
            total: Sum::zero(),
            bands: [Sum::zero(); 8],
        }
    }

    /// The levels of the sums in dB, 0 dB where a sum is below 1 (ISO 9613-2, equations 5 and 6). Where they fit some bundles,
    /// these are the levels that a receiver has from them.
    pub fn levels(&self) -> Levels
        ensures total { result.total ≡ level_of_sum self.now.total }
        ensures bands { (band : Band) → level_in band result ≡ band_level_of_sums self.now band }
        ensures fitting { (bundles : List BundleSeen) → length bundles ≤ few_bundles → Fits self.now bundles
            → result ≡ levels_of bundles }
    {
        Levels {
            total: level(&self.total),
            bands: [
                level(&self.bands[0]),
                level(&self.bands[1]),
                level(&self.bands[2]),
                level(&self.bands[3]),
                level(&self.bands[4]),
                level(&self.bands[5]),
                level(&self.bands[6]),
                level(&self.bands[7]),
            ],
        }
    }

    /// Adds the energies of a bundle.
    pub(crate) fn add(&mut self, bundle: &Bundle)
        requires { HaveRoom self.old }
        ensures { (front : List BundleSeen) (back : List BundleSeen) → Fits self.old (front ++ back)
            → Fits self.new (front ++ bundle.now ∷ back) }
    {
        add_to(&mut self.total, bundle.long);
        add_each(&mut self.bands, &bundle.energy);
    }

    /// Takes off the energies of a bundle that were added before.
    pub(crate) fn take_off(&mut self, bundle: &Bundle)
        requires { ArePartOf self.old bundle.now }
        ensures { (front : List BundleSeen) (back : List BundleSeen)
            → Fits self.old (front ++ bundle.now ∷ back) → Fits self.new (front ++ back) }
    {
        self.total.take_off(bundle.long);
        take_each_off(&mut self.bands, &bundle.energy);
    }

    /// Takes off the energies of the bundles from a place up to another.
    pub(crate) fn take_off_between(&mut self, bundles: &[Bundle], from: usize, to: usize)
        requires from { from ≤ to }
        requires to { to ≤ length bundles.now }
        requires fit { FitFrom from bundles.now self.old }
        ensures { (front : List BundleSeen) → Fits self.old (front ++ drop from bundles.now)
            → Fits self.new (front ++ drop to bundles.now) }
    {
        for place in from..to {
            self.take_off(&bundles[place]);
        }
    }
}

/// Adds an energy to a sum. What is known of an energy then stands in the contract.
fn add_to(sum: &mut Sum, energy: Iv)
    requires room { HasRoom sum.old }
    requires energy { IsEnergy energy }
    ensures sum { sum.new ≡ add_of sum.old energy }
    ensures interval { IsInterval energy }
{
    let _low = energy.lo();
    sum.add(energy);
}

/// Adds an energy to each of the sums in the bands.
fn add_each(sums: &mut [Sum; 8], energies: &[Iv; 8])
    requires room { (place : ℕ) (d : Interval) → place < 8 → HasRoom (slice_index_or sums.old place d) }
    requires energies { All IsEnergy energies.now }
    ensures sums { (place : ℕ) (d : Interval) (e : Interval) → place < 8
        → slice_index_or sums.new place d
        ≡ add_of (slice_index_or sums.old place d) (slice_index_or energies.now place e) }
    ensures intervals { (place : ℕ) (e : Interval) → place < 8
        → IsInterval (slice_index_or energies.now place e) }
{
    for place in 0..8 {
        let mut sum = sums[place];
        add_to(&mut sum, energies[place]);
        sums[place] = sum;
    }
}

/// Takes an energy off each of the sums in the bands.
fn take_each_off(sums: &mut [Sum; 8], energies: &[Iv; 8])
    requires { (place : ℕ) (d : Interval) (e : Interval) → place < 8
        → IsPartOf (slice_index_or sums.old place d) (slice_index_or energies.now place e) }
    ensures low { (place : ℕ) (d : Interval) (e : Interval) → place < 8
        → (slice_index_or sums.new place d).lo
        ≡ Some (pos (units_of (slice_index_or sums.old place d).lo
        - units_of (slice_index_or energies.now place e).lo)) }
    ensures high { (place : ℕ) (d : Interval) (e : Interval) → place < 8
        → (slice_index_or sums.new place d).hi
        ≡ Some (pos (units_of (slice_index_or sums.old place d).hi
        - units_of (slice_index_or energies.now place e).hi)) }
{
    for place in 0..8 {
        let mut sum = sums[place];
        sum.take_off(energies[place]);
        sums[place] = sum;
    }
}
