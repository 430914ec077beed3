//! The attenuation by foliage in the octave bands (ISO 9613-2, Table A.1).

ghost use Rattle.std.specs.Prelude.{◌≡◌, ◌*◌, ◌^◌, pos, map};
ghost use Rattle.std.specs.List.{All};
ghost use Rattle.fix_interval.specs.Bounds.{AreBetween};
ghost use Rattle.fix_interval.specs.Tree.{Known, enc};
ghost use Rattle.fix_interval.specs.Values.{ratio_of};
ghost use Rattle.path_shape.specs.Shape.{IsPath};
ghost use Rattle.scene_geom.specs.Bands.{all_bands};
ghost use Rattle.term_foliage.specs.Foliage.{attenuations, foliage_in};
ghost use Rattle.term_foliage.specs.Foliage as form;

use crate::distance::distance_through;
use fix_interval::{Iv, exact, less, min, mul, pick, ratio};
use path_shape::Path;
use scene_geom::Band;
use scene_parts::Foliage;

/// The attenuation by dense foliage in dB (ISO 9613-2, Table A.1), in the octave bands from 63 Hz to 8 kHz, of a path whose
/// length is `d` metres. Where the length is from 0 m to 2^28 m all ends are from 0 dB to 25 dB.
pub fn a_fol(foliage: &[Foliage], path: &Path, d: Iv) -> [Iv; 8]
    requires { IsPath path.now }
    ensures value { result ≡ map enc (attenuations foliage.now path.now (Known d)) }
    ensures bounds { AreBetween (pos 0) (pos (2 ^ 60)) d
        → All (AreBetween (pos 0) (pos (25 * 2 ^ 32))) result }
{
    match distance_through(foliage, path, d) {
        None => in_bands(mul(exact(0), d)),
        Some(through) => in_bands(through),
    }
}

/// The attenuations over a distance through foliage in metres.
fn in_bands(through: Iv) -> [Iv; 8]
    ensures { result ≡ map (λ band. enc (foliage_in band (Known through))) all_bands }
{
    Band::of_each(|band| a_fol_over(through, band))
}

/// The attenuation by dense foliage in dB in a band (ISO 9613-2, Table A.1), over a distance through it in metres
/// (`distance_through`). Where the distance is from 0 m to 2^28 m both ends are from 0 dB to 25 dB.
#[tactic(auto, unfolding(crate::specs::Foliage::foliage_in))]
pub fn a_fol_over(through: Iv, band: Band) -> Iv
    ensures value { result ≡ enc (foliage_in band (Known through)) }
    ensures bounds { AreBetween (pos 0) (pos (2 ^ 60)) through
        → AreBetween (pos 0) (pos (25 * 2 ^ 32)) result }
{
    let longer = less(exact(20), through);
    let shorter = less(through, exact(10));
    let capped = min(through, exact(200));
    let short = pick(shorter, exact(0), over_short(band));
    pick(longer, mul(per_metre(band), capped), short)
}

/// From 20 m on, in dB per metre.
fn per_metre(band: Band) -> Iv
    ensures { result ≡ ratio_of (pos (form.per_metre band)) 100 }
{
    match band {
        Band::Hz63 => ratio(2, 100),
        Band::Hz125 => ratio(3, 100),
        Band::Hz250 => ratio(4, 100),
        Band::Hz500 => ratio(5, 100),
        Band::Hz1000 => ratio(6, 100),
        Band::Hz2000 => ratio(8, 100),
        Band::Hz4000 => ratio(9, 100),
        Band::Hz8000 => ratio(12, 100),
    }
}

/// From 10 m to 20 m, in dB.
fn over_short(band: Band) -> Iv
    ensures { result ≡ ratio_of (pos (form.over_short band)) 1 }
{
    match band {
        Band::Hz63 | Band::Hz125 => exact(0),
        Band::Hz250 | Band::Hz500 | Band::Hz1000 | Band::Hz2000 => exact(1),
        Band::Hz4000 => exact(2),
        Band::Hz8000 => exact(3),
    }
}
