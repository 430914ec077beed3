//! Where the pieces of a leg lie.
ghost use Rattle.std.specs.Prelude.{◌≡◌, ◌+◌, ◌*◌, ◌≤◌, ◌<◌, pos, ◌-ℤ◌, ◌*ℤ◌, unsigned_abs};
ghost use Rattle.fix_interval.specs.Round.{floor_of};
ghost use Rattle.scene_geom.specs.Plan.{InPlan};
ghost use Rattle.line_sources.specs.Legs.{middle_of, place_of};

use scene_geom::{Pt, Side};

/// The place of the source of piece `i` of `count`, numbered from 0: the middle of the piece, rounded down.
pub(crate) fn place(side: Side, i: u32, count: u32) -> Pt
    requires within { i < count }
    requires few { count ≤ 11314 }
    ensures { result ≡ place_of side i count }
{
    let x = middle(side.from.x, side.to.x, i, count);
    let y = middle(side.from.y, side.to.y, i, count);
    Pt::new(x, y)
}

/// The middle of a piece between two coordinates, in mm.
fn middle(from: i32, to: i32, i: u32, count: u32) -> i64
    requires from_in_plan { InPlan from }
    requires to_in_plan { InPlan to }
    requires within { i < count }
    requires few { count ≤ 11314 }
    ensures value { result ≡ middle_of from to i count }
    ensures in_plan { InPlan result }
{
    i64::from(from) + part(way(from, to), i, count)
}

/// How far it is from one coordinate to another, in mm.
pub(crate) fn way(from: i32, to: i32) -> i64
    requires from_in_plan { InPlan from }
    requires to_in_plan { InPlan to }
    ensures value { result ≡ to -ℤ from }
    ensures within { unsigned_abs result ≤ 8000000 }
{
    i64::from(to) - i64::from(from)
}

/// How much of a way lies before the middle of a piece, rounded down.
fn part(way: i64, i: u32, count: u32) -> i64
    requires way { unsigned_abs way ≤ 8000000 }
    requires within { i < count }
    requires few { count ≤ 11314 }
    ensures value { result ≡ floor_of (pos (2 * i + 1) *ℤ way) (2 * count) }
    ensures within { unsigned_abs result ≤ 8000000 }
{
    times(way, 2 * i + 1).div_euclid(i64::from(2 * count))
}

/// A way a number of times.
fn times(way: i64, number: u32) -> i64
    requires way { unsigned_abs way ≤ 8000000 }
    requires few { number ≤ 22628 }
    ensures value { result ≡ pos number *ℤ way }
    ensures within { unsigned_abs result ≤ 181024000000 }
{
    i64::from(number) * way
}
