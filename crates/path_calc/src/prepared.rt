//! What is calculated once of a source or of a receiver, and serves all of its paths.
ghost use Rattle.std.specs.Prelude.{◌≡◌, map, All, IfSome};
ghost use Rattle.std.specs.Option.{option_map};
ghost use Rattle.fix_interval.specs.Tree.{Known, Const, Add, enc};
ghost use Rattle.path_calc.specs.Contributions.{power_in as power_of, emission_in as emission_of};
ghost use Rattle.scene_geom.specs.Bands.{all_bands};
ghost use Rattle.path_calc.specs.Prepared.{prepared_of};
ghost use Rattle.path_calc.specs.inner.Prepared.{emission_at, has_power as is_powered, IsEmission};
ghost use Rattle.path_calc.specs.inner.Ranges.{IsPower, IsCorrection};

use crate::totals::numbers::hundredths;
use fix_interval::{Iv, add};
use scene_geom::Band;
use scene_parts::{PointSource, Receiver};
use std::marker::Model;
use term_ground::{Decays, decays_at};

/// What all paths of a source share: what it emits in each band, L_W + D_c of ISO 9613-2, equation 3, and how the
/// effect of the ground decays with its height. Contracts see it as the height in mm and the emissions in dB.
#[derive(Drop)]
pub struct PreparedSource {
    decays: Decays,
    emissions: [Option<Iv>; 8],
}

impl Model for PreparedSource {
    ghost use Rattle.path_calc.specs.Prepared.{PreparedSource as PreparedSourceSeen};
    ghost use Rattle.path_calc.specs.inner.Prepared.{IsPrepared};

    ghost Value = { PreparedSourceSeen };

    ghost view = { λ p. record { h = p.decays.h; emissions = p.emissions } };

    ghost invariant = { λ p. IsPrepared (record { h = p.decays.h; emissions = p.emissions }) };
}

impl PreparedSource {
    /// Prepares a source.
    pub fn of(source: &PointSource) -> PreparedSource
        ensures { result ≡ prepared_of source.now }
    {
        PreparedSource {
            decays: decays_at(source.h),
            emissions: emissions(source),
        }
    }

    /// What is emitted in a band in dB, where there is power.
    pub(crate) fn emission_in(&self, band: Band) -> Option<Iv>
        ensures value { result ≡ emission_at self.now band }
        ensures bounds { IfSome result IsEmission }
    {
        self.emissions[band.place()]
    }

    /// Whether there is power in a band.
    pub(crate) fn has_power(&self, band: Band) -> bool
        ensures { result ≡ is_powered self.now band }
    {
        self.emission_in(band).is_some()
    }

    /// For each band whether there is power in it.
    pub(crate) fn powered(&self) -> [bool; 8]
        ensures { result ≡ map (is_powered self.now) all_bands }
    {
        Band::of_each(|band| self.has_power(band))
    }

    /// The decays at the height of the source.
    pub(crate) fn decays(&self) -> &Decays
        ensures { result.now.h ≡ self.now.h }
    {
        &self.decays
    }
}

/// What all paths to a receiver share: how the effect of the ground decays with its height. Contracts see it as
/// that height in mm.
#[derive(Drop)]
pub struct PreparedReceiver {
    decays: Decays,
}

impl Model for PreparedReceiver {
    ghost use Rattle.std.specs.Prelude.{ℕ};

    ghost Value = { ℕ };

    ghost view = { λ p. p.decays.h };
}

impl PreparedReceiver {
    /// Prepares a receiver.
    pub fn of(receiver: &Receiver) -> PreparedReceiver
        ensures { result ≡ receiver.now.h }
    {
        PreparedReceiver {
            decays: decays_at(receiver.h),
        }
    }

    /// The decays at the height of the receiver.
    pub(crate) fn decays(&self) -> &Decays
        ensures { result.now.h ≡ self.now }
    {
        &self.decays
    }
}

/// What a source emits in each band in dB.
fn emissions(source: &PointSource) -> [Option<Iv>; 8]
    ensures value { result ≡ (prepared_of source.now).emissions }
    ensures bounds { All (λ emission. IfSome emission IsEmission) result }
{
    Band::of_each(|band| emission_in(source, band))
}

/// What a source emits in a band in dB, where it has power there.
fn emission_in(source: &PointSource, band: Band) -> Option<Iv>
    ensures value { result ≡ option_map enc (emission_of band source.now) }
    ensures bounds { IfSome result IsEmission }
{
    match power_in(source, band) {
        Some(power) => Some(emission(power, directivity(source))),
        None => None,
    }
}

/// L_W + D_c, of a power in 0.01 dB and a directivity correction in dB.
fn emission(power: i32, directivity: Iv) -> Iv
    requires power { IsPower power }
    requires directivity { IsCorrection directivity }
    ensures value { result ≡ enc (Add (Const power 100) (Known directivity)) }
    ensures bounds { IsEmission result }
{
    add(hundredths(power), directivity)
}

/// The power of a source in a band, in 0.01 dB.
fn power_in(source: &PointSource, band: Band) -> Option<i32>
    ensures value { result ≡ power_of band source.now }
    ensures power { IfSome result IsPower }
{
    source.lw[band.place()]
}

/// The directivity correction of a source, in dB.
fn directivity(source: &PointSource) -> Iv
    ensures value { result ≡ enc (Const source.now.dc 100) }
    ensures bounds { IsCorrection result }
{
    hundredths(source.dc)
}
