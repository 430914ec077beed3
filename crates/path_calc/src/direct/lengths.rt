//! Distances between a source and a receiver.
ghost use Rattle.std.specs.Prelude.{◌≡◌, ◌≤◌, ◌<◌, ◌^◌, ◌*◌, ◌-ℤ◌, pos, unsigned_abs};
ghost use Rattle.scene_geom.specs.Plan.{InPlan};
ghost use Rattle.scene_geom.specs.Fraction.{over};
ghost use Rattle.scene_parts.specs.Parts.{IsHeight};
ghost use Rattle.std.specs.Int.{abs_diff};
ghost use Rattle.fix_interval.specs.Tree.{Const, enc};
ghost use Rattle.path_shape.specs.Shape as shape;
ghost use Rattle.path_shape.specs.Shape.{square_form};
ghost use Rattle.path_calc.specs.Lengths as lengths;
ghost use Rattle.term_barrier.specs.Limits.{IsDistance};
ghost use Rattle.path_calc.specs.inner.Ranges.{IsOnMap, IsPathSquare};

use fix_interval::{Iv, add, ratio, root};
use scene_geom::{Frac, Pt};

#[tactic(auto, unfolding(path_shape::specs::Shape::squared))]
fn square(mm: u32) -> u64
    ensures value { result ≡ shape.squared mm }
    ensures small { mm ≤ 8000000 → result ≤ 64000000000000 }
{
    u64::from(mm) * u64::from(mm)
}

/// The square of the plan length of the direct path, in mm².
pub(crate) fn direct_square(s: Pt, r: Pt) -> Frac
    ensures value { result ≡ over (pos (shape.plan_square s r)) (pos 1) }
    ensures range { IsPathSquare result }
{
    Frac {
        n: plan_square(s, r).into(),
        d: 1,
    }
}

/// How far two coordinates are apart, in mm.
fn apart(a: i32, b: i32) -> u32
    requires a_in_plan { InPlan a }
    requires b_in_plan { InPlan b }
    ensures value { result ≡ unsigned_abs (b -ℤ a) }
    ensures bound { result ≤ 8000000 }
{
    b.abs_diff(a)
}

/// The square of the distance in plan, in mm².
fn plan_square(s: Pt, r: Pt) -> u64
    ensures value { result ≡ shape.plan_square s r }
    ensures bound { result ≤ 128000000000000 }
{
    square(apart(s.x, r.x)) + square(apart(s.y, r.y))
}

/// The square of the distance in space, in mm².
fn space_square(s: Pt, hs: u32, r: Pt, hr: u32) -> u64
    requires source_height { IsHeight hs }
    requires receiver_height { IsHeight hr }
    ensures value { result ≡ lengths.space_square s hs r hr }
    ensures bound { result < 2 ^ 48 }
{
    plan_square(s, r) + square(hs.abs_diff(hr))
}

/// The distance in metres, as the root of its square.
fn root_of_square(s: Pt, hs: u32, r: Pt, hr: u32) -> Iv
    requires source_height { IsHeight hs }
    requires receiver_height { IsHeight hr }
    ensures value { result ≡ enc (lengths.distance s hs r hr) }
    ensures small { lengths.space_square s hs r hr < 2 ^ 48 }
{
    root(ratio(space_square(s, hs, r, hr) as i128, 1_000_000))
}

/// The distance d in metres between two points at heights in mm, at most 2^15 m.
pub(crate) fn distance(s: Pt, hs: u32, r: Pt, hr: u32) -> Iv
    requires source_height { IsHeight hs }
    requires receiver_height { IsHeight hr }
    ensures value { result ≡ enc (lengths.distance s hs r hr) }
    ensures bounds { IsDistance result }
    ensures near { IsOnMap result }
{
    root_of_square(s, hs, r, hr)
}

/// The distance d in metres along a path by way of a wall, of the square of its plan length in mm² and the heights at its
/// ends in mm, at most 2^28 m.
pub(crate) fn reflected_distance(plan2: Frac, hs: u32, hr: u32) -> Iv
    requires source_height { IsHeight hs }
    requires receiver_height { IsHeight hr }
    requires plan { IsPathSquare plan2 }
    ensures value { result ≡ enc (lengths.reflected_distance plan2 hs hr) }
    ensures bounds { IsDistance result }
{
    root(add(square_in_metres(plan2), rise_square(hs, hr)))
}

/// A square of so many mm², in m².
pub(crate) fn square_in_metres(plan2: Frac) -> Iv
    requires { unsigned_abs plan2.d ≤ 68718952449 }
    ensures { result ≡ enc (square_form plan2) }
{
    ratio(plan2.n, plan2.d * 1_000_000)
}

/// The square of the difference of two heights in mm, in m².
fn rise_square(hs: u32, hr: u32) -> Iv
    requires source_height { IsHeight hs }
    requires receiver_height { IsHeight hr }
    ensures value { result ≡ enc (Const (pos (shape.squared (abs_diff hs hr))) 1000000) }
    ensures small { shape.squared (abs_diff hs hr) < 2 ^ 48 }
{
    ratio(square(hs.abs_diff(hr)) as i128, 1_000_000)
}

/// Whether two points are within reach of each other: not farther apart in plan than this many mm.
pub fn within(reach: u32, s: Pt, r: Pt) -> bool
    ensures { result ≡ lengths.is_within reach s r }
{
    plan_square(s, r) <= square(reach)
}
