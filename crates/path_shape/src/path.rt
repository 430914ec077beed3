//! Paths and their plan lengths.

ghost use Rattle.std.specs.Prelude.{◌≡◌, ◌≤◌, unsigned_abs};
ghost use Rattle.fix_interval.specs.Tree.{enc};
ghost use Rattle.path_shape.specs.Shape.{squared};
ghost use Rattle.path_shape.specs.Shape as shape;

use super::legs::Legs;
use fix_interval::{Iv, ratio, root};
use scene_geom::{Frac, Pt, Side, dir_of, unfold};

/// A path from a source to a receiver.
#[derive(Clone, Copy, Drop)]
pub struct Path {
    /// The source, in plan.
    pub s: Pt,
    /// The height of the source above ground, in mm.
    pub hs: u32,
    /// The receiver, in plan.
    pub r: Pt,
    /// The height of the receiver above ground, in mm.
    pub hr: u32,
    /// The length of the path in plan, d_p of ISO 9613-2, 7.3.1, in metres.
    pub dp: Iv,
    pub legs: Legs,
}

impl Path {
    ghost use Rattle.std.specs.Prelude.{◌≡◌};
    ghost use Rattle.scene_geom.specs.Reflection.{CanReflect};
    ghost use Rattle.path_shape.specs.Shape.{direct_path, reflected_path, IsPath, IsZeroOrMore};

    /// The direct path from a source to a receiver, whose heights are in mm. Its plan length is 0 m or
    /// at least 2^-10 m.
    pub fn direct(s: Pt, hs: u32, r: Pt, hr: u32) -> Path
        ensures value { result ≡ direct_path s hs r hr }
        ensures path { IsPath result }
        ensures least { IsZeroOrMore result.dp }
    {
        Path {
            s,
            hs,
            r,
            hr,
            dp: plan_length(s, r),
            legs: Legs::One(dir_of(s, r)),
        }
    }

    /// The path from a source to a receiver, whose heights are in mm, by way of a side of a reflecting
    /// wall (ISO 9613-2, 7.5), which is at most 262,143 mm long and has both strictly on one side of
    /// its line.
    pub fn reflected(side: Side, s: Pt, hs: u32, r: Pt, hr: u32) -> Path
        requires { CanReflect side s r }
        ensures value { result ≡ reflected_path side s hs r hr }
        ensures path { IsPath result }
    {
        let plan = unfold(side, s, r);
        Path {
            s,
            hs,
            r,
            hr,
            dp: length_of(plan.square),
            legs: Legs::Two(plan.first, plan.second, plan.p),
        }
    }
}

/// The distance of two points in plan, in metres.
fn plan_length(s: Pt, r: Pt) -> Iv
    ensures { result ≡ enc (shape.plan_length s r) }
{
    root(ratio(plan_square(s, r).into(), 1_000_000))
}

/// The squared distance of two points in plan, in mm².
fn plan_square(s: Pt, r: Pt) -> u64
    ensures value { result ≡ shape.plan_square s r }
    ensures bound { result ≤ 128000000000000 }
{
    square(r.x.abs_diff(s.x)) + square(r.y.abs_diff(s.y))
}

/// A distance along one axis of the plan, in mm, squared.
#[tactic(auto, unfolding(crate::specs::Shape::squared))]
fn square(mm: u32) -> u64
    requires { mm ≤ 8000000 }
    ensures value { result ≡ squared mm }
    ensures bound { result ≤ 64000000000000 }
{
    u64::from(mm) * u64::from(mm)
}

/// The length in metres whose square is a fraction of mm².
fn length_of(square: Frac) -> Iv
    requires { unsigned_abs square.d ≤ 68718952449 }
    ensures { result ≡ enc (shape.length_of square) }
{
    root(ratio(square.n, square.d * 1_000_000))
}
