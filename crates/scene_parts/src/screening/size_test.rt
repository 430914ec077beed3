//! The size test: in which bands an obstacle is large enough to screen (ISO 9613-2, 7.4).
ghost use Rattle.std.specs.Prelude.{◌≡◌, ◌≤◌, map};
ghost use Rattle.scene_geom.specs.Bands.{all_bands};
ghost use Rattle.scene_parts.specs.InBand.{is_in_band};
ghost use Rattle.scene_parts.specs.Crossings.{counts_in};

use crate::outlines::shapes::squared;
use crate::parts::Obstacle;
use crate::screening::ends::Ends;
use scene_geom::{Band, Pt, Side, extent};

/// The speed of sound in mm/s: over the frequency it is the wavelength.
const SOUND_SPEED: u128 = 340_000;

/// How large an obstacle is normal to the line from source to receiver. It is the same for all bands.
#[derive(Clone, Copy, Drop)]
pub struct Breadth {
    /// Its dimension normal to the line, times the line's length, in mm².
    pub extent: u64,
    /// The square of the line's length, in mm².
    pub square: u64,
    pub ghost extent_within: { extent ≤ 256000000000000 },
    pub ghost square_within: { square ≤ 128000000000000 },
}

impl Breadth {
    ghost use Rattle.std.specs.Prelude.{◌≡◌, unsigned_abs};
    ghost use Rattle.scene_geom.specs.Outline.{extent_of};
    ghost use Rattle.scene_parts.specs.Sides.{squared_length};
    ghost use Rattle.scene_parts.specs.InBand.{exceeds_wavelength as exceeds};

    /// The breadth of an obstacle on the line from `s` to `r`.
    pub fn of(obstacle: &Obstacle, s: Pt, r: Pt) -> Breadth
        ensures extent { result.extent ≡ unsigned_abs (extent_of obstacle.now.points s r) }
        ensures square { result.square ≡ squared_length (record { from = s; to = r }) }
    {
        Breadth {
            extent: extent(obstacle.points.items(), s, r).unsigned_abs() as u64,
            square: squared(Side { from: s, to: r }),
        }
    }

    /// Whether that dimension exceeds the wavelength.
    pub fn exceeds_wavelength(self, band: Band) -> bool
        ensures { result ≡ exceeds self.extent self.square band }
    {
        let times = u128::from(band.frequency()) * u128::from(self.extent);
        times * times > SOUND_SPEED * SOUND_SPEED * u128::from(self.square)
    }
}

/// Whether an obstacle's dimension normal to the line from source to receiver exceeds the wavelength. Where they share
/// their place in plan, nothing does.
pub fn in_band(obstacle: &Obstacle, s: Pt, r: Pt, band: Band) -> bool
    ensures { result ≡ is_in_band obstacle.now s r band }
{
    Breadth::of(obstacle, s, r).exceeds_wavelength(band)
}

/// In which bands an obstacle is large enough to screen, from 63 Hz on (7.4).
pub fn bands_of(obstacle: &Obstacle, ends: Ends) -> [bool; 8]
    ensures { result ≡ map (λ band. counts_in band ends obstacle.now) all_bands }
{
    let breadth = Breadth::of(obstacle, ends.s, ends.r);
    Band::of_each(|band| breadth.exceeds_wavelength(band))
}
