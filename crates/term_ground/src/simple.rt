//! The alternative method for ground (ISO 9613-2, 7.3.2, equations 10 and 11).

ghost use Rattle.std.specs.Prelude.{◌≡◌, ◌+◌, ◌*◌, ◌<◌, ◌^◌, pos};
ghost use Rattle.fix_interval.specs.Bounds.{AreBetween};
ghost use Rattle.fix_interval.specs.Lg.{is_at_least, lg_of};
ghost use Rattle.fix_interval.specs.Tree.{Known, enc};
ghost use Rattle.fix_interval.specs.Values.{ratio_of};
ghost use Rattle.path_shape.specs.Shape.{squared, IsPlanSquare};
ghost use Rattle.term_ground.specs.Alternative.{simple_over, simple_ground, solid_angle};
ghost use Rattle.term_ground.specs.Alternative as form;
ghost use Rattle.term_ground.specs.Limits.{HasHeights};

use enclose_log::lg;
use fix_interval::{Iv, add, div, exact, max, mul, ratio, sub};
use path_shape::Path;

/// The attenuation by the ground in dB by the alternative method (ISO 9613-2, equation 10), the same in every octave band,
/// of a path whose length is `d` metres, which counts as 1 m at least. It is never below 0 dB. Where the length is from 0 m
/// to 2^28 m all ends are from 0 dB to 8 dB.
#[tactic(auto, unfolding(crate::specs::Alternative::simple_ground))]
pub fn a_gr_simple(path: &Path, d: Iv) -> Iv
    ensures value { result ≡ enc (simple_ground path.now (Known d)) }
    ensures bounds { AreBetween (pos 0) (pos (2 ^ 60)) d → AreBetween (pos 0) (pos (8 * 2 ^ 32)) result }
{
    max(exact(0), over_distance(mean_height(path), max(exact(1), d)))
}

/// Equation 10 without its lower limit, of a mean height and over a distance in metres.
fn over_distance(height: Iv, g: Iv) -> Iv
    ensures { result ≡ enc (simple_over (Known height) (Known g)) }
{
    let slope = div(mul(exact(2), height), g);
    sub(
        ratio(48, 10),
        mul(slope, add(exact(17), div(exact(300), g))),
    )
}

/// The mean height of a path above ground, in metres.
fn mean_height(path: &Path) -> Iv
    ensures value { result ≡ enc (form.mean_height path.now) }
    ensures bounds { AreBetween (pos 0) (pos (2 ^ 55)) result }
{
    half(u64::from(path.hs) + u64::from(path.hr))
}

/// Half of a height in mm, in metres.
fn half(h: u64) -> Iv
    requires { h < 2 ^ 33 }
    ensures { result ≡ ratio_of (pos h) 2000 }
{
    ratio(h.into(), 2000)
}

/// The solid angle index D_Omega in dB (ISO 9613-2, equation 11): what the ground near the source adds to the sound by the
/// alternative method. `q` is the square of the plan length of the path, in m². Where the heights are at most 100 m and not
/// both 0, and `q` is as the square of a path's length is, all ends are from 0 dB to 10 dB.
#[tactic(auto, unfolding(crate::specs::Alternative::solid_angle))]
pub fn d_omega(path: &Path, q: Iv) -> Iv
    ensures value { result ≡ enc (solid_angle path.now (Known q)) }
    ensures bounds { HasHeights path.now → IsPlanSquare q → AreBetween (pos 0) (pos (10 * 2 ^ 32)) result }
{
    let apart = height_square(u64::from(path.hs.abs_diff(path.hr)));
    let together = height_square(u64::from(path.hs) + u64::from(path.hr));
    let part = div(add(q, apart), add(q, together));
    mul(exact(10), logarithm(add(exact(1), part)))
}

/// The square of a height in mm, in m².
fn height_square(h: u64) -> Iv
    requires { h < 2 ^ 33 }
    ensures { result ≡ enc (form.height_square h) }
{
    ratio(square(h) as i128, 1_000_000)
}

#[tactic(auto, unfolding(path_shape::specs::Shape::squared))]
fn square(h: u64) -> u128
    requires { h < 2 ^ 33 }
    ensures value { result ≡ squared h }
    ensures bound { result < 2 ^ 66 }
{
    u128::from(h) * u128::from(h)
}

/// The common logarithm, of which nothing is known where a quantity may be 0 or below.
fn logarithm(a: Iv) -> Iv
    ensures { result ≡ lg_of a }
{
    if is_positive(a) { lg(a) } else { Iv::ALL }
}

/// Whether a quantity is sure to lie above 0.
fn is_positive(a: Iv) -> bool
    ensures { result ≡ is_at_least (pos 1) a.lo }
{
    match a.low() {
        Some(low) => 0 < low,
        None => false,
    }
}
