//! The A-weighting.
ghost use Rattle.std.specs.Prelude.{◌≡◌, ◌≤ℤ◌, pos, neg_ℤ};
ghost use Rattle.path_calc.specs.Weights.{weight_in};

use scene_geom::Band;

/// The A-weight A_f of a band in 0.1 dB (ISO 9613-2, equation 5).
pub(crate) fn weight_of(band: Band) -> i32
    ensures value { result ≡ weight_in band }
    ensures low { neg_ℤ (pos 300) ≤ℤ result }
    ensures high { result ≤ℤ pos 20 }
{
    match band {
        Band::Hz63 => -262,
        Band::Hz125 => -161,
        Band::Hz250 => -86,
        Band::Hz500 => -32,
        Band::Hz1000 => 0,
        Band::Hz2000 => 12,
        Band::Hz4000 => 10,
        Band::Hz8000 => -11,
    }
}
