//! Outlines that lie beside a leg of a path, found by products of two numbers of 64 bits.

ghost use Rattle.std.specs.Prelude.{◌≡◌, ◌≤◌, ◌*ℤ◌, unsigned_abs, true, false};
ghost use Rattle.std.specs.Bool.{beq};
ghost use Rattle.std.specs.List.{list_all};
ghost use Rattle.scene_geom.specs.Crossing.{is_left};
ghost use Rattle.scene_geom.specs.Direction.{way};
ghost use Rattle.scene_geom.specs.Outline.{meets_of};

use crate::legs::leg::Leg;
use scene_geom::Pt;

/// Whether all corners of an outline are on one hand of the line of a leg, so that it doesn't meet the leg.
pub(crate) fn lies_beside_leg(outline: &[Pt], leg: &Leg) -> bool
    ensures { result ≡ true → meets_of outline.now leg.now.start leg.now.dir leg.now.end ≡ false }
{
    let Some((first, rest)) = outline.split_first() else {
        return true;
    };
    are_on_hand(rest, leg, leaves_left(leg, *first))
}

/// Whether all corners are on the left of the line of a leg, or all aren't.
fn are_on_hand(corners: &[Pt], leg: &Leg, left: bool) -> bool
    ensures { result
        ≡ list_all (λ c. beq (is_left leg.now.start (way leg.now.dir) c) left) corners.now }
{
    for corner in corners {
        if leaves_left(leg, *corner) != left {
            return false;
        }
    }
    true
}

/// Whether a corner is strictly left of the line of a leg.
#[inline(always)]
fn leaves_left(leg: &Leg, corner: Pt) -> bool
    ensures { result ≡ is_left leg.now.start (way leg.now.dir) corner }
{
    let across = i64::from(corner.x) - i64::from(leg.start.x);
    let up = i64::from(corner.y) - i64::from(leg.start.y);
    times(leg.dir.x, up) > times(leg.dir.y, across)
}

/// A component of a direction times a difference of coordinates. Both hold in 64 bits, so that one multiplication gives
/// the product.
#[inline(always)]
fn times(component: i128, difference: i64) -> i128
    requires component { unsigned_abs component ≤ 2110000000000000000 }
    requires difference { unsigned_abs difference ≤ 8000000 }
    ensures value { result ≡ component *ℤ difference }
    ensures within { unsigned_abs result ≤ 16880000000000000000000000 }
{
    i128::from(component as i64) * i128::from(difference)
}
