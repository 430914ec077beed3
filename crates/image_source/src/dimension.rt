//! Whether a surface is large enough to reflect (ISO 9613-2, 7.5, condition 19).
ghost use Rattle.std.specs.Prelude.{◌≡◌, ◌<◌, ◌-ℤ◌, ◌*ℤ◌, length, map, pos, slice_get, unsigned_abs, IfSome};
ghost use Rattle.fix_interval.specs.Tree.{Known, Const, Mul, enc};
ghost use Rattle.fix_interval.specs.Values.{less_of};
ghost use Rattle.scene_geom.specs.Bands.{all_bands, frequency_of};
ghost use Rattle.scene_geom.specs.Fraction.{FitsEnd, rest_of};
ghost use Rattle.scene_geom.specs.Reflection as wall;
ghost use Rattle.scene_parts.specs.Parts.{sides_of};
ghost use Rattle.image_source.specs.Dimensions as form;

use crate::image::Mirror;
use crate::placing::ahead;
use fix_interval::{Iv, Truth, div, less, min, mul, ratio, root};
use scene_geom::{Band, Frac, Side};
use scene_parts::{Obstacle, side_of};

/// Whether side `i` of an obstacle is large enough in a band for the reflection `m` in it, whose path is `d` metres long:
/// `Unsure` exactly where the intervals of both sides of the condition don't decide it.
pub fn big_enough(o: &Obstacle, i: u32, m: &Mirror, d: Iv, band: Band) -> Truth
    requires { i < length (sides_of o.now) }
    ensures { IfSome (slice_get (sides_of o.now) i) (λ side. result ≡ less_of
        (enc (form.needed_squared m.now.p (Known d) band))
        (enc (form.dimension_squared side o.now.h m.now.p (Known d)))) }
{
    less(
        needed_squared(m, d, band),
        dimension_squared(side_of(o, i), o.h, m, d),
    )
}

/// Whether a side of a wall of height `h` in mm is large enough in each band for the reflection `m` in it, whose path is
/// `d` metres long. What the bands share of the condition is calculated once.
#[tactic(auto, unfolding(crate::specs::Dimensions::needed_squared))]
pub fn big_enough_in_bands(side: Side, h: u32, m: &Mirror, d: Iv) -> [Truth; 8]
    ensures { result ≡ map (λ band. less_of
        (enc (form.needed_squared m.now.p (Known d) band))
        (enc (form.dimension_squared side h m.now.p (Known d)))) all_bands }
{
    let seen = dimension_squared(side, h, m, d);
    let legs = legs_product(m, d);
    Band::of_each(|band| less(needed_over(legs, band), seen))
}

/// (l_min cos β)² of the reflection in a side of a wall of height `h` in mm, whose path is `d` metres long: the square of
/// the surface's least dimension, as the sound sees it, in m². The same for all bands.
#[tactic(auto, unfolding(crate::specs::Dimensions::dimension_squared))]
pub fn dimension_squared(side: Side, h: u32, m: &Mirror, d: Iv) -> Iv
    ensures { result ≡ enc (form.dimension_squared side h m.now.p (Known d)) }
{
    let seen = mul(least_dimension(side, h), incidence(side, m, d));
    mul(seen, seen)
}

/// What that square has to exceed in a band: 2 λ d_so d_or / (d_so + d_or), in m².
#[tactic(auto, unfolding(crate::specs::Dimensions::needed_squared))]
pub fn needed_squared(m: &Mirror, d: Iv, band: Band) -> Iv
    ensures { result ≡ enc (form.needed_squared m.now.p (Known d) band) }
{
    needed_over(legs_product(m, d), band)
}

/// The same, with d_so d_or / (d_so + d_or) in metres.
fn needed_over(legs: Iv, band: Band) -> Iv
    ensures { result ≡ enc (Mul (Const (pos 680) (frequency_of band)) (Known legs)) }
{
    mul(ratio(680, band.frequency().into()), legs)
}

/// The lesser of the length and the height in mm of a side, in metres.
#[tactic(auto, unfolding(crate::specs::Dimensions::least_dimension))]
fn least_dimension(side: Side, h: u32) -> Iv
    ensures { result ≡ enc (form.least_dimension side h) }
{
    min(
        root(ratio(wall_square(side), 1_000_000)),
        ratio(h.into(), 1000),
    )
}

/// The cosine of the angle of incidence.
#[tactic(auto, unfolding(crate::specs::Dimensions::incidence))]
fn incidence(side: Side, m: &Mirror, d: Iv) -> Iv
    ensures { result ≡ enc (form.incidence side m.now.p (Known d)) }
{
    div(
        div(ratio(m.p.d, 1000), root(ratio(wall_square(side), 1))),
        d,
    )
}

/// d_so d_or / (d_so + d_or), in metres.
#[tactic(auto, unfolding(crate::specs::Dimensions::legs_product))]
fn legs_product(m: &Mirror, d: Iv) -> Iv
    ensures { result ≡ enc (form.legs_product m.now.p (Known d)) }
{
    mul(division(m.p), d)
}

/// The product of the two parts into which the specular point divides the path.
fn division(p: Frac) -> Iv
    requires end { FitsEnd p }
    requires rest { FitsEnd (rest_of p) }
    ensures { result ≡ enc (Const (p.n *ℤ (p.d -ℤ p.n)) (unsigned_abs (p.d *ℤ p.d))) }
{
    ratio(p.n * (p.d - p.n), p.d * p.d)
}

/// The square of a side's length, in mm².
fn wall_square(side: Side) -> i128
    ensures { result ≡ pos (wall.squared_length side) }
{
    i128::from(ahead(side, side.to))
}
