//! Bundles.
ghost use Rattle.std.specs.Prelude.{◌≡◌, ◌<◌, ◌^◌, pos, ◌≤ℤ◌, ◌<ℤ◌, IsSomeAnd};
ghost use Rattle.path_calc.specs.Bundles.{IsEnergy, energy_in};

pub(crate) mod calculation;
pub(crate) mod segments;
pub(crate) mod steps;

use crate::bundles::segments::Segs;
use fix_interval::Iv;
use scene_geom::{Band, Pt};
use scene_parts::Name;
use std::marker::Model;

/// All that a receiver has from one source: the name, the place and the height in mm of the source, the plan segments along
/// which parts of the scene were read, the energy in each octave band, and the A-weighted long-term energy over all bands
/// (ISO 9613-2, equation 5), both as ratios.
#[derive(Clone, Drop)]
pub struct Bundle {
    pub source: Name,
    pub at: Pt,
    pub h: u32,
    pub segs: Segs,
    pub energy: [Iv; 8],
    pub long: Iv,
}

impl Model for Bundle {
    ghost use Rattle.path_calc.specs.Bundles.{Bundle as BundleSeen, IsBundle};

    ghost Value = { BundleSeen };

    ghost use Rattle.path_calc.specs.Seen.{bundle_seen};

    ghost view = { bundle_seen };

    ghost invariant = { λ b. IsBundle (bundle_seen b) };
}

impl Bundle {
    /// The energy in a band.
    pub(crate) fn energy_in(&self, band: Band) -> Iv
        ensures value { result ≡ energy_in band self.now }
        ensures energy { IsEnergy result }
    {
        self.energy[band.place()]
    }

    /// The long-term energy.
    pub(crate) fn long_energy(&self) -> Iv
        ensures value { result ≡ self.now.long }
        ensures energy { IsEnergy result }
    {
        self.long
    }
}
