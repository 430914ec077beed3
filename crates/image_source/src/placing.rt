//! What changes evenly along a path, at a place of it.
ghost use Rattle.std.specs.Prelude.{◌≡◌, ◌≤◌, ◌<◌, ◌^◌, ◌+ℤ◌, ◌*ℤ◌, ◌-ℤ◌, pos, unsigned_abs};
ghost use Rattle.scene_geom.specs.Plan.{InPlan};
ghost use Rattle.scene_geom.specs.Point.{orient_of};
ghost use Rattle.image_source.specs.Mirrors.{at_place};
ghost use Rattle.image_source.specs.Mirrors as form;

use scene_geom::{Frac, Pt, Side};
use scene_parts::Ends;

/// The height of the line of sight at a place, in mm, times the divisor of the place.
pub(crate) fn sight_height(ends: Ends, t: Frac) -> i128
    requires above { unsigned_abs t.n ≤ 51660000000000000000000000 }
    requires below { unsigned_abs t.d ≤ 51660000000000000000000000 }
    ensures { result ≡ at_place (pos ends.hs) (pos ends.hr) t }
{
    between(ends.hs, ends.hr, t)
}

/// The height at a place of the way from one height to another, times the divisor of the place.
fn between(hs: u32, hr: u32, t: Frac) -> i128
    requires above { unsigned_abs t.n ≤ 51660000000000000000000000 }
    requires below { unsigned_abs t.d ≤ 51660000000000000000000000 }
    ensures { result ≡ at_place (pos hs) (pos hr) t }
{
    let start = i128::from(hs);
    start * t.d + t.n * (i128::from(hr) - start)
}

/// A height in mm, times the divisor of a place.
pub(crate) fn height_at(h: u32, t: Frac) -> i128
    requires { unsigned_abs t.d ≤ 51660000000000000000000000 }
    ensures { result ≡ pos h *ℤ t.d }
{
    i128::from(h) * t.d
}

/// How far along a side from its start the point lies that is at a place of the way between two points, times the square
/// of the side's length and the divisor of the place, in mm.
pub(crate) fn ahead_at(side: Side, from: Pt, to: Pt, p: Frac) -> i128
    requires above { unsigned_abs p.n ≤ 256000000000000 }
    requires below { unsigned_abs p.d ≤ 256000000000000 }
    ensures { result ≡ at_place (form.ahead side from) (form.ahead side to) p }
{
    let start = i128::from(ahead(side, from));
    let end = i128::from(ahead(side, to));
    start * p.d + p.n * (end - start)
}

/// How far along a side from its start a point lies, times the side's length, in mm². 64 bits hold it.
pub(crate) fn ahead(side: Side, p: Pt) -> i64
    ensures value { result ≡ form.ahead side p }
    ensures within { unsigned_abs result ≤ 128000000000000 }
{
    way(side.from.x, p.x) * way(side.from.x, side.to.x)
        - way(p.y, side.from.y) * way(side.from.y, side.to.y)
}

/// How far off the line of a side a point lies, times the side's length, in mm²: above 0 to the left of it, below 0 to the
/// right. 64 bits hold it.
pub(crate) fn off_line(side: Side, p: Pt) -> i64
    ensures value { result ≡ orient_of side.from side.to p }
    ensures within { unsigned_abs result ≤ 128000000000000 }
{
    way(side.from.x, side.to.x) * way(side.from.y, p.y)
        - way(side.from.y, side.to.y) * way(side.from.x, p.x)
}

/// No point of the plan reaches farther along a side, times the side's length, in mm².
pub(crate) const FARTHEST: i64 = 64_000_000_000_000;

/// How far along a side's direction a point lies from the origin, times the side's length, in mm²: by the side's step.
pub(crate) fn reach(dx: i32, dy: i32, p: Pt) -> i64
    requires across { unsigned_abs dx ≤ 8000000 }
    requires upward { unsigned_abs dy ≤ 8000000 }
    ensures value { result ≡ p.x *ℤ dx +ℤ p.y *ℤ dy }
    ensures within { unsigned_abs result ≤ 64000000000000 }
{
    i64::from(p.x) * i64::from(dx) + i64::from(p.y) * i64::from(dy)
}

/// How far it is from one coordinate to another, in mm, where 32 bits are to hold it.
pub(crate) fn step(from: i32, to: i32) -> i32
    requires from_in_plan { InPlan from }
    requires to_in_plan { InPlan to }
    ensures value { result ≡ to -ℤ from }
    ensures within { unsigned_abs result ≤ 8000000 }
{
    to - from
}

/// How far it is from one coordinate to another, in mm.
fn way(from: i32, to: i32) -> i64
    requires from_in_plan { InPlan from }
    requires to_in_plan { InPlan to }
    ensures value { result ≡ to -ℤ from }
    ensures within { unsigned_abs result ≤ 8000000 }
{
    i64::from(to) - i64::from(from)
}
