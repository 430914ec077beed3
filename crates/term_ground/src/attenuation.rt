//! The attenuation by the ground in the octave bands (ISO 9613-2, equation 9 and Table 3).

ghost use Rattle.std.specs.Prelude.{◌≡◌, ◌<◌, ◌≤◌, ◌^◌, pos, map, true, Some};
ghost use Rattle.fix_interval.specs.Tree.{Known, Add, Const, Mul, enc};
ghost use Rattle.fix_interval.specs.Bounds.{AreBetween};
ghost use Rattle.path_shape.specs.Shape.{IsPath};
ghost use Rattle.term_ground.specs.Quantities.{interval_of};
ghost use Rattle.term_ground.specs.Ground.{ground, end_region_below_2khz};
ghost use Rattle.term_ground.specs.Limits.{HasHeights, AreLimited};
ghost use Rattle.term_ground.specs.inner.EndRegions.{IsEndRegion, no_factor};
ghost use Rattle.term_ground.specs.inner.EndRegions.{known_attenuations};
ghost use Rattle.term_ground.specs.declared.legs.stretch.Regional.{Regional};
ghost use Rattle.term_ground.specs.Ground as form;

use crate::amounts::amount::Amount;
use crate::coverage::share::shares;
use crate::decays::{Decays, Growths, decays_at, growths_over};
use crate::extents::quotients::over_length;
use crate::legs::stretch::{Regional, middle_from};
use fix_interval::{Iv, Truth, add, exact, less, mul, pick, sub};
use path_shape::Path;
use scene_parts::Zone;

/// The attenuation by the ground in dB (ISO 9613-2, 7.3.1), in the octave bands from 63 Hz to 8 kHz, among zones of ground
/// and with the ground factor `g0`, in hundredths, outside of them. For a ground factor of at most 1 and heights of at most
/// 100 m that aren't both 0 all ends are from -16 dB to 2^26 dB.
pub fn a_gr(zones: &[Zone], g0: u8, path: &Path) -> [Iv; 8]
    requires { IsPath path.now }
    ensures value { result ≡ map enc (ground zones.now g0 path.now (Known path.now.dp)) }
    ensures bounds { g0 ≤ 100 → HasHeights path.now → AreLimited result }
{
    a_gr_between(zones, g0, path, &decays_at(path.hs), &decays_at(path.hr))
}

/// The same, with the decays at the heights of the source and of the receiver at hand.
pub fn a_gr_between(
    zones: &[Zone],
    g0: u8,
    path: &Path,
    source: &Decays,
    receiver: &Decays,
) -> [Iv; 8]
    requires path { IsPath path.now }
    requires source { source.now.h ≡ path.now.hs }
    requires receiver { receiver.now.h ≡ path.now.hr }
    ensures value { result ≡ map enc (ground zones.now g0 path.now (Known path.now.dp)) }
    ensures bounds { g0 ≤ 100 → HasHeights path.now → AreLimited result }
{
    let shares = shares(zones, g0, path);
    if are_hard(&shares) {
        between_hard_ends(path, &shares)
    } else {
        let growths = growths_over(path);
        let at_source = end_region(shares.source, source, &growths);
        let at_receiver = end_region(shares.receiver, receiver, &growths);
        in_bands(path, shares.middle, &at_source, &at_receiver)
    }
}

/// The attenuations in the bands where neither end region has porous ground: A_s and A_r are the same at every height and
/// distance and in every band, and so is A_m from 125 Hz on.
fn between_hard_ends(path: &Path, shares: &Regional) -> [Iv; 8]
    requires path { IsPath path.now }
    requires source_height { path.now.hs < 2 ^ 32 }
    requires receiver_height { path.now.hr < 2 ^ 32 }
    requires source { shares.now.source ≡ no_factor }
    requires receiver { shares.now.receiver ≡ no_factor }
    ensures { result ≡ map enc (known_attenuations shares.now path.now) }
{
    let hard = base();
    let at_63 = middle_at_63(middle_part(path));
    let above = sum(hard, hard, middle_above(at_63, shares.middle));
    [
        sum(hard, hard, at_63),
        above,
        above,
        above,
        above,
        above,
        above,
        above,
    ]
}

/// The attenuations in the bands, with A_s and A_r, and with the ground factor of the middle region.
fn in_bands(path: &Path, share: Iv, source: &EndRegion, receiver: &EndRegion) -> [Iv; 8]
    ensures { (shares : Regional) → shares.middle ≡ share
        → IsEndRegion source.now shares.source path.now.hs (Known path.now.dp)
        → IsEndRegion receiver.now shares.receiver path.now.hr (Known path.now.dp)
        → result ≡ map enc (known_attenuations shares path.now) }
{
    let below = base();
    let at_63 = middle_at_63(middle_part(path));
    let middle = middle_above(at_63, share);
    let high = sum(source.high, receiver.high, middle);
    [
        sum(below, below, at_63),
        sum(source.at_125, receiver.at_125, middle),
        sum(source.at_250, receiver.at_250, middle),
        sum(source.at_500, receiver.at_500, middle),
        sum(source.at_1000, receiver.at_1000, middle),
        high,
        high,
        high,
    ]
}

/// A_s + A_r + A_m
fn sum(source: Iv, receiver: Iv, middle: Iv) -> Iv
    ensures { result ≡ enc (Add (Add (Known source) (Known receiver)) (Known middle)) }
{
    add(add(source, receiver), middle)
}

/// A_s or A_r in the bands from 125 Hz on.
#[derive(Clone, Copy, Drop)]
struct EndRegion {
    at_125: Iv,
    at_250: Iv,
    at_500: Iv,
    at_1000: Iv,
    /// In each band from 2 kHz on.
    high: Iv,
}

/// Whether the ground factors of both end regions are exactly 0.
fn are_hard(shares: &Regional) -> bool
    ensures source { result ≡ true → shares.now.source ≡ no_factor }
    ensures receiver { result ≡ true → shares.now.receiver ≡ no_factor }
{
    is_hard(shares.source) && is_hard(shares.receiver)
}

/// Whether a ground factor is exactly 0.
fn is_hard(share: Iv) -> bool
    ensures { result ≡ true → share ≡ no_factor }
{
    share.low() == Some(0) && share.high() == Some(0)
}

/// A_s or A_r, with the ground factor of the region.
fn end_region(share: Iv, decays: &Decays, growths: &Growths) -> EndRegion
    requires { AreBetween (pos 0) (pos (2 ^ 36)) share }
    ensures { IsEndRegion result share decays.now.h (Known growths.now.dp) }
{
    let near = growths.near;
    let first = one_and_a_half().plus(near.by(decays.at_125));
    let at_125 = first.plus(growths.far.by(decays.far_at_125));
    let factor = Amount::of(share);
    EndRegion {
        at_125: at_125.by(factor).less_one_and_a_half(),
        at_250: below_2khz(factor, decays.at_250, near),
        at_500: below_2khz(factor, decays.at_500, near),
        at_1000: below_2khz(factor, decays.at_1000, near),
        high: factor.by(one_and_a_half()).less_one_and_a_half(),
    }
}

/// A_s or A_r in a band from 250 Hz to 1 kHz, with the ground factor of the region, a decay and how it grows.
#[inline(always)]
fn below_2khz(share: Amount, decay: Amount, growth: Amount) -> Iv
    requires share { share.hi ≤ 2 ^ 36 }
    requires decay { decay.hi ≤ 2 ^ 36 }
    requires growth { growth.hi ≤ 2 ^ 36 }
    ensures { result ≡ enc (end_region_below_2khz (Known (interval_of share))
        (Add form.one_and_a_half (Mul (Known (interval_of decay)) (Known (interval_of growth))))) }
{
    one_and_a_half()
        .plus(growth.by(decay))
        .by(share)
        .less_one_and_a_half()
}

/// A_s and A_r on hard ground, in dB.
#[tactic(auto, unfolding(fix_interval::specs::Values::ratio_of, fix_interval::specs::Units::unit))]
fn base() -> Iv
    ensures { result ≡ enc form.minus_one_and_a_half }
{
    Iv::of_ends(Some(-6_442_450_944), Some(-6_442_450_944))
}

/// 1.5, in the functions below Table 3.
#[tactic(auto, unfolding(fix_interval::specs::Values::ratio_of, fix_interval::specs::Units::unit))]
#[inline(always)]
fn one_and_a_half() -> Amount
    ensures value { interval_of result ≡ enc form.one_and_a_half }
    ensures small { result.hi ≤ 2 ^ 36 }
{
    Amount {
        lo: 6_442_450_944,
        hi: 6_442_450_944,
    }
}

/// q, the part of a path that is its middle region.
#[tactic(auto, unfolding(crate::specs::Ground::middle_part))]
fn middle_part(path: &Path) -> Iv
    ensures { result ≡ enc (form.middle_part path.now (Known path.now.dp)) }
{
    let from = middle_from(path);
    match less(from, path.dp) {
        Truth::Never => exact(0),
        longer => pick(longer, sub(exact(1), over_length(from, path.dp)), exact(0)),
    }
}

/// A_m at 63 Hz.
fn middle_at_63(q: Iv) -> Iv
    ensures { result ≡ enc (form.middle_at_63 (Known q)) }
{
    mul(exact(-3), q)
}

/// A_m in the bands from 125 Hz on, with the ground factor of the middle region.
fn middle_above(at_63: Iv, share: Iv) -> Iv
    ensures { result ≡ enc (Mul (Known at_63) (form.hard_part (Known share))) }
{
    mul(at_63, sub(exact(1), share))
}
