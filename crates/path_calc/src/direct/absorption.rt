//! What the air absorbs.
ghost use Rattle.std.specs.Prelude.{◌≡◌, ◌<◌, All, slice_index};
ghost use Rattle.scene_geom.specs.Bands.{place_of};
ghost use Rattle.path_calc.specs.Absorption.{coefficient_in};

use scene_geom::Band;
use scene_parts::Air;

/// The attenuation coefficient of an air in a band, in 0.1 dB/km (ISO 9613-2, Table 2). Each row of the table is read by
/// itself, so that the place of a band in it is one read of memory.
pub(crate) fn coefficient(air: Air, band: Band) -> u32
    ensures value { result ≡ coefficient_in air band }
    ensures bound { result < 4096 }
{
    match air {
        Air::Celsius10Humidity70 => in_band(&[1, 4, 10, 19, 37, 97, 328, 1170], band),
        Air::Celsius20Humidity70 => in_band(&[1, 3, 11, 28, 50, 90, 229, 766], band),
        Air::Celsius30Humidity70 => in_band(&[1, 3, 10, 31, 74, 127, 231, 593], band),
        Air::Celsius15Humidity20 => in_band(&[3, 6, 12, 27, 82, 282, 888, 2020], band),
        Air::Celsius15Humidity50 => in_band(&[1, 5, 12, 22, 42, 108, 362, 1290], band),
        Air::Celsius15Humidity80 => in_band(&[1, 3, 11, 24, 41, 83, 237, 828], band),
    }
}

/// The coefficient of a row in a band.
#[inline(always)]
fn in_band(row: &[u32; 8], band: Band) -> u32
    requires { All (λ c. c < 4096) row.now }
    ensures value { result ≡ slice_index row.now (place_of band) }
    ensures bound { result < 4096 }
{
    row[band.place()]
}
