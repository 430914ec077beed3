//! Where a side of an obstacle reflects.
ghost use Rattle.std.specs.Prelude.{◌≡◌, ◌≤◌, ◌<◌, ◌≤ℤ◌, length, pos, slice_get, true, false, unsigned_abs, IfSome};
ghost use Rattle.scene_parts.specs.Parts.{IsObstacle, sides_of};
ghost use Rattle.scene_geom.specs.Crossing.{are_opposite};
ghost use Rattle.scene_geom.specs.Fraction.{FitsCrossing};
ghost use Rattle.scene_geom.specs.declared.fractions.fraction.Frac.{Frac};
ghost use Rattle.scene_geom.specs.Reflection.{CanReflect, are_on_one_side, off_wall};
ghost use Rattle.scene_geom.specs.Reflection as wall;
ghost use Rattle.image_source.specs.Mirrors.{mirror_of};
ghost use Rattle.image_source.specs.Mirrors as form;

use crate::image::Mirror;
use crate::placing::{ahead, ahead_at, height_at, sight_height};
use scene_geom::{Frac, Pt, Side, area2, on_one_side, orient};
use scene_parts::{Ends, Obstacle, Shape, side_of};

/// The reflection from a source to a receiver, whose heights are in mm, in side `i` of an obstacle. None where there is
/// none: the obstacle doesn't reflect, source and receiver aren't both in front of the side and strictly on one side of
/// its line, the specular point isn't strictly between the side's ends, or the path passes above the wall there.
pub fn mirror(o: &Obstacle, i: u32, s: Pt, hs: u32, r: Pt, hr: u32) -> Option<Mirror>
    requires { i < length (sides_of o.now) }
    ensures value { IfSome (slice_get (sides_of o.now) i)
        (λ side. result ≡ mirror_of o.now side (record { s = s; hs = hs; r = r; hr = hr })) }
    ensures fits { IfSome (slice_get (sides_of o.now) i)
        (λ side. IfSome result (λ m. CanReflect side s r)) }
{
    let side = side_of(o, i);
    let ends = Ends { s, hs, r, hr };
    if has_mirror(o, side, ends) {
        Some(Mirror::of(side, s, r))
    } else {
        None
    }
}

/// Whether a side of an obstacle mirrors a source to a receiver: where `mirror` gives a reflection. What most sides fail by is
/// asked first, and nothing is unfolded.
pub fn has_mirror(o: &Obstacle, side: Side, ends: Ends) -> bool
    ensures value { result ≡ form.has_mirror o.now side ends }
    ensures kept { IsObstacle o.now }
{
    if o.rho == 0 || !on_one_side(side, ends.s, ends.r) || passes_by(side, ends) {
        return false;
    }
    let p = specular(side, ends.s, ends.r);
    strikes(side, ends, p) && stays_below(ends, o.h, p) && faces(o, side, ends.s)
}

/// Whether an obstacle's side reflects on the side on which a point lies: a building's doesn't on its inside.
fn faces(o: &Obstacle, side: Side, p: Pt) -> bool
    ensures { result ≡ form.faces o.now.shape o.now.points side p }
{
    match o.shape {
        Shape::Barrier => true,
        Shape::Building => opposite(orient(side.from, side.to, p), area2(o.points.items())),
    }
}

/// Whether source and receiver both lie before the start of a side or both behind its end, so that nothing between them is
/// strictly between these. 64 bits tell.
fn passes_by(side: Side, ends: Ends) -> bool
    ensures { result ≡ true → (p : Frac) → pos 0 ≤ℤ p.n → p.n ≤ℤ p.d → form.strikes side ends p ≡ false }
{
    let source = ahead(side, ends.s);
    let receiver = ahead(side, ends.r);
    if source <= 0 {
        return receiver <= 0;
    }
    let end = ahead(side, side.to);
    end <= source && end <= receiver
}

/// The fraction of the path that lies before the specular point.
fn specular(side: Side, s: Pt, r: Pt) -> Frac
    requires { are_on_one_side side s r ≡ true }
    ensures value { result ≡ wall.specular side s r }
    ensures fits { FitsCrossing result }
{
    let before = off(side, s);
    Frac {
        n: before,
        d: before + off(side, r),
    }
}

/// The distance of a point from the line of a side, times the side's length, in mm².
fn off(side: Side, p: Pt) -> i128
    ensures value { result ≡ pos (off_wall side p) }
    ensures within { unsigned_abs result ≤ 128000000000000 }
{
    orient(side.from, side.to, p).abs()
}

/// Whether the specular point lies strictly between the ends of a side.
fn strikes(side: Side, ends: Ends, p: Frac) -> bool
    requires { FitsCrossing p }
    ensures { result ≡ form.strikes side ends p }
{
    let place = ahead_at(side, ends.s, ends.r, p);
    0 < place && place < i128::from(ahead(side, side.to)) * p.d
}

/// Whether the path passes the specular point no higher than the wall is.
fn stays_below(ends: Ends, h: u32, p: Frac) -> bool
    requires { FitsCrossing p }
    ensures { result ≡ form.stays_below ends h p }
{
    sight_height(ends, p) <= height_at(h, p)
}

/// Whether one number is above 0 and the other below.
fn opposite(a: i128, b: i128) -> bool
    ensures { result ≡ are_opposite a b }
{
    a < 0 && 0 < b || b < 0 && 0 < a
}
