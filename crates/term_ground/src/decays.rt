//! The exponentials of the functions below Table 3.

ghost use Rattle.std.specs.Prelude.{◌≡◌, ◌<◌, ◌^◌};
ghost use Rattle.fix_interval.specs.Tree.{Known, enc};
ghost use Rattle.path_shape.specs.Shape.{IsPath};
ghost use Rattle.term_ground.specs.Ground.{decay_at_125, far_decay_at_125, decay_at_250};
ghost use Rattle.term_ground.specs.Ground.{decay_at_500, decay_at_1000, near_growth, far_growth};
ghost use Rattle.term_ground.specs.Ground as form;
ghost use Rattle.term_ground.specs.Quantities.{IsFactor};

use crate::amounts::amount::Amount;
use enclose_exp::exp_neg;
use fix_interval::{Iv, exact, mul, over, ratio, sub, times};
use path_shape::Path;

/// What the functions below Table 3 take of a height, in mm: how they decay with it. It belongs to a source or a receiver
/// and serves all of its paths.
#[derive(Drop)]
pub struct Decays {
    pub h: u32,
    /// 3.0 e^(-0.12 (h - 5 m)²)
    pub(crate) at_125: Amount,
    /// 5.7 e^(-0.09 h²)
    pub(crate) far_at_125: Amount,
    /// 8.6 e^(-0.09 h²)
    pub(crate) at_250: Amount,
    /// 14.0 e^(-0.46 h²)
    pub(crate) at_500: Amount,
    /// 5.0 e^(-0.9 h²)
    pub(crate) at_1000: Amount,
    pub ghost h_fits: { h < 2 ^ 32 },
    pub ghost at_125_is: { IsFactor at_125 (decay_at_125 h) },
    pub ghost far_at_125_is: { IsFactor far_at_125 (far_decay_at_125 h) },
    pub ghost at_250_is: { IsFactor at_250 (decay_at_250 h) },
    pub ghost at_500_is: { IsFactor at_500 (decay_at_500 h) },
    pub ghost at_1000_is: { IsFactor at_1000 (decay_at_1000 h) },
}

/// The decays at a height in mm.
#[tactic(auto, unfolding(crate::specs::Ground::decay_at_125, crate::specs::Ground::far_decay_at_125, crate::specs::Ground::decay_at_250, crate::specs::Ground::decay_at_500, crate::specs::Ground::decay_at_1000))]
pub fn decays_at(h: u32) -> Decays
    ensures { result.h ≡ h }
{
    let squared = square(h);
    let slow = decay(9 * squared, 100_000_000);
    Decays {
        h,
        at_125: Amount::of(mul(exact(3), decay(12 * square(h.abs_diff(5000)), 100_000_000))),
        far_at_125: Amount::of(mul(ratio(57, 10), slow)),
        at_250: Amount::of(mul(ratio(86, 10), slow)),
        at_500: Amount::of(mul(exact(14), decay(46 * squared, 100_000_000))),
        at_1000: Amount::of(mul(exact(5), decay(9 * squared, 10_000_000))),
    }
}

fn square(h: u32) -> u128
    ensures value { result ≡ h ^ 2 }
    ensures bound { result < 2 ^ 64 }
{
    u128::from(h) * u128::from(h)
}

/// e^(-p / q)
fn decay(p: u128, q: u32) -> Iv
    requires numerator { p < 2 ^ 94 }
    requires divisor { 0 < q }
    ensures { result ≡ enc (form.decay p q) }
{
    exp_neg(ratio(p as i128, q.into()))
}

/// How the functions of a band grow with the plan length of a path, in metres.
#[derive(Drop)]
pub(crate) struct Growths {
    pub dp: Iv,
    /// 1 - e^(-d_p / 50 m)
    pub near: Amount,
    /// 1 - e^(-2.8 d_p² / 10^6 m²)
    pub far: Amount,
    pub ghost near_is: { IsFactor near (near_growth (Known dp)) },
    pub ghost far_is: { IsFactor far (far_growth (Known dp)) },
}

/// The growths of a path.
#[tactic(auto, unfolding(crate::specs::Ground::near_growth, crate::specs::Ground::far_growth))]
pub(crate) fn growths_over(path: &Path) -> Growths
    requires { IsPath path.now }
    ensures { result.dp ≡ path.now.dp }
{
    let one = exact(1);
    let squared = mul(path.dp, path.dp);
    Growths {
        dp: path.dp,
        near: Amount::of(sub(one, exp_neg(over(path.dp, 50)))),
        far: Amount::of(sub(one, exp_neg(over(times(squared, 28), 10_000_000)))),
    }
}
