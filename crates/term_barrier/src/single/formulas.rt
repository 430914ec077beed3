//! The quantities of equations (14) to (18) as intervals, from those of the lengths in them.

ghost use Rattle.std.specs.Prelude.{◌≡◌};
ghost use Rattle.fix_interval.specs.Tree.{Known, enc};
ghost use Rattle.term_barrier.specs.Diffraction as form;
ghost use Rattle.term_barrier.specs.Screening as screen;
ghost use Rattle.term_barrier.specs.inner.Reaching as reaching;
ghost use Rattle.term_barrier.specs.inner.Prepared as prepared;

use crate::pair::spacing::EdgeSpacing;
use crate::single::vanishing::vanishes;
use enclose_exp::exp_neg;
use enclose_log::lg;
use fix_interval::{Iv, Truth, add, div, exact, less, max, min, mul, over, pick, root, sub};
use scene_geom::Band;

/// By how much a way that is `length` long across edges, and at a right angle to that as long as `square` says, is longer
/// than `d`, in metres (equations 16 and 17).
#[tactic(auto, unfolding(crate::specs::Diffraction::path_difference))]
pub(crate) fn path_difference(length: Iv, square: Iv, d: Iv) -> Iv
    ensures { result ≡ enc (form.path_difference (Known length) (Known square) (Known d)) }
{
    sub(root(add(mul(length, length), square)), d)
}

/// K_met (equation 18).
#[tactic(auto, unfolding(crate::specs::Diffraction::k_met))]
pub(crate) fn k_met(d_ss: Iv, d_sr: Iv, d: Iv, z: Iv) -> Iv
    ensures { result ≡ enc (form.k_met (Known d_ss) (Known d_sr) (Known d) (Known z)) }
{
    let longer = less(exact(0), z);
    // an edge below the line of sight has none, so that nothing is divided
    if let Truth::Never = longer {
        return exact(1);
    }
    if vanishes(d_ss, d_sr, d, z) {
        return Iv::of_ends(Some(0), Some(1));
    }
    let quotient = div(mul(mul(d_ss, d_sr), d), mul(exact(2), z));
    let decay = exp_neg(max(exact(0), over(root(quotient), 2000)));
    pick(longer, decay, exact(1))
}

/// (C_2 / λ) z, of a single edge.
#[tactic(auto, unfolding(crate::specs::Diffraction::at_one_edge))]
pub(crate) fn at_one_edge(band: Band, z: Iv) -> Iv
    ensures { result ≡ enc (form.at_one_edge band (Known z)) }
{
    mul(c_2_by_wavelength(band), z)
}

/// (C_2 / λ) C_3 z, of two edges.
pub(crate) fn at_two_edges(band: Band, spacing: &EdgeSpacing, z: Iv) -> Iv
    ensures { result ≡ reaching.two_edges band spacing.now z }
{
    mul(mul(c_2_by_wavelength(band), c_3(band, spacing)), z)
}

/// C_2 / λ, per metre.
#[tactic(auto, unfolding(crate::specs::Diffraction::c_2_by_wavelength, fix_interval::specs::Values::ratio_of, fix_interval::specs::Units::unit))]
fn c_2_by_wavelength(band: Band) -> Iv
    ensures { result ≡ enc (form.c_2_by_wavelength band) }
{
    match band {
        Band::Hz63 => Iv::of_ends(Some(15_916_643_508), Some(15_916_643_509)),
        Band::Hz125 => Iv::of_ends(Some(31_580_641_882), Some(31_580_641_883)),
        Band::Hz250 => Iv::of_ends(Some(63_161_283_764), Some(63_161_283_765)),
        Band::Hz500 => Iv::of_ends(Some(126_322_567_529), Some(126_322_567_530)),
        Band::Hz1000 => Iv::of_ends(Some(252_645_135_058), Some(252_645_135_059)),
        Band::Hz2000 => Iv::of_ends(Some(505_290_270_117), Some(505_290_270_118)),
        Band::Hz4000 => Iv::of_ends(Some(1_010_580_540_235), Some(1_010_580_540_236)),
        Band::Hz8000 => Iv::of_ends(Some(2_021_161_080_470), Some(2_021_161_080_471)),
    }
}

/// C_3 of two edges (equation 15).
fn c_3(band: Band, spacing: &EdgeSpacing) -> Iv
    ensures { result ≡ reaching.known_c_3 band spacing.now }
{
    let waves = five_wavelengths_squared(band);
    div(add(spacing.square, waves), add(spacing.third, waves))
}

/// (5 λ)², in square metres.
#[tactic(auto, unfolding(crate::specs::Diffraction::five_wavelengths_squared, fix_interval::specs::Values::ratio_of, fix_interval::specs::Units::unit))]
fn five_wavelengths_squared(band: Band) -> Iv
    ensures { result ≡ enc (form.five_wavelengths_squared band) }
{
    match band {
        Band::Hz63 => Iv::of_ends(Some(3_127_350_840_372), Some(3_127_350_840_373)),
        Band::Hz125 => Iv::of_ends(Some(794_397_151_068), Some(794_397_151_069)),
        Band::Hz250 => Iv::of_ends(Some(198_599_287_767), Some(198_599_287_768)),
        Band::Hz500 => Iv::of_ends(Some(49_649_821_941), Some(49_649_821_942)),
        Band::Hz1000 => Iv::of_ends(Some(12_412_455_485), Some(12_412_455_486)),
        Band::Hz2000 => Iv::of_ends(Some(3_103_113_871), Some(3_103_113_872)),
        Band::Hz4000 => Iv::of_ends(Some(775_778_467), Some(775_778_468)),
        Band::Hz8000 => Iv::of_ends(Some(193_944_616), Some(193_944_617)),
    }
}

/// 3 and what is added to it under the logarithm of equation (14).
pub(crate) fn three_and(x: Iv) -> Iv
    ensures { result ≡ enc (form.three_and (Known x)) }
{
    add(exact(3), x)
}

/// D_z of a single edge, in dB, where `b` stands under the logarithm (equation 14): at most 20 dB.
#[tactic(auto, unfolding(crate::specs::Diffraction::attenuation))]
pub(crate) fn single_attenuation(b: Iv) -> Iv
    ensures { result ≡ enc (form.attenuation form.single_limit (Known b)) }
{
    min(exact(20), ten_lg(b))
}

/// D_z of two edges, in dB, where `b` stands under the logarithm (equation 14): at most 25 dB.
#[tactic(auto, unfolding(crate::specs::Diffraction::attenuation))]
pub(crate) fn double_attenuation(b: Iv) -> Iv
    ensures { result ≡ enc (form.attenuation form.double_limit (Known b)) }
{
    min(exact(25), ten_lg(b))
}

/// Ten times the logarithm of a number, or of 1 where that is greater.
#[tactic(auto, unfolding(crate::specs::Diffraction::ten_lg))]
fn ten_lg(b: Iv) -> Iv
    ensures { result ≡ enc (form.ten_lg (Known b)) }
{
    mul(exact(10), lg(max(exact(1), b)))
}

/// D_z less the attenuation by the ground, at least 0 dB (equation 12).
pub(crate) fn less_ground(d_z: Iv, gr: Iv) -> Iv
    ensures { result ≡ enc (screen.less_ground (Known d_z) (Known gr)) }
{
    max(exact(0), sub(d_z, gr))
}

/// A_bar where no edge rises above the line of sight, with the greatest that stands under a logarithm, if there is any edge.
pub(crate) fn below_line(argument: Option<Iv>, gr: Iv) -> Iv
    ensures { result ≡ prepared.below_line argument gr }
{
    match argument {
        Some(b) => grazing(b, gr),
        None => exact(0),
    }
}

/// A_bar where no edge rises above the line of sight and `b` is the greatest that stands under a logarithm.
fn grazing(b: Iv, gr: Iv) -> Iv
    ensures { result ≡ enc (screen.grazing (Known b) (Known gr)) }
{
    let screened = less_ground(single_attenuation(b), gr);
    pick(less(exact(1), b), screened, exact(0))
}
