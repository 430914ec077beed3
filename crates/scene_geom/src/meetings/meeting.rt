//! Whether an outline meets a line of sight.

ghost use Rattle.std.specs.Prelude.{◌≡◌, ◌≤◌, unsigned_abs, IfSome};
ghost use Rattle.scene_geom.specs.Crossing.{passage_of};
ghost use Rattle.scene_geom.specs.Direction.{FitsDirection};
ghost use Rattle.scene_geom.specs.Fraction.{FitsEnd};
ghost use Rattle.scene_geom.specs.Outline.{ring, meets_of};
ghost use Rattle.scene_geom.specs.inner.ClearWinding.{clear_turn_of, clear_winding_of};

use crate::directions::direction::Dir;
use crate::fractions::fraction::Frac;
use crate::fractions::places::lies_inside;
use crate::meetings::beside::lies_beside;
use crate::meetings::crossing::passes;
use crate::plan::{Pt, Side};

/// Whether an outline meets the way from a point along a direction up to an end, in units of the
/// direction: some side crosses strictly between 0 and the end, or the outline winds round the
/// start.
pub fn meets(outline: &[Pt], from: Pt, dir: Dir, end: Frac) -> bool
    requires dir_fits { FitsDirection dir }
    requires end_fits { FitsEnd end }
    ensures { result ≡ meets_of outline.now from dir end }
{
    if lies_beside(outline, from, dir) {
        return false;
    }
    match clear_winding(outline, from, dir, end) {
        None => true,
        Some(winding) => winding != 0,
    }
}

/// How often an outline winds round the start, None where a side crosses strictly between.
fn clear_winding(outline: &[Pt], from: Pt, dir: Dir, end: Frac) -> Option<i128>
    requires dir_fits { FitsDirection dir }
    requires end_fits { FitsEnd end }
    ensures { result ≡ clear_winding_of (ring outline.now) from dir end }
{
    let Some((first, rest)) = outline.split_first() else {
        return Some(0);
    };
    let mut corner = *first;
    let mut winding = 0;
    for next in rest {
        let side = Side {
            from: corner,
            to: *next,
        };
        winding += clear_turn(side, from, dir, end)?;
        corner = *next;
    }
    let closing = Side {
        from: corner,
        to: *first,
    };
    Some(winding + clear_turn(closing, from, dir, end)?)
}

/// What a side adds to the winding, None where it crosses strictly between.
fn clear_turn(side: Side, from: Pt, dir: Dir, end: Frac) -> Option<i128>
    requires dir_fits { FitsDirection dir }
    requires end_fits { FitsEnd end }
    ensures value { result ≡ clear_turn_of (passage_of side from dir) end }
    ensures within { IfSome result (λ turn. unsigned_abs turn ≤ 1) }
{
    let Some(passage) = passes(side, from, dir) else {
        return Some(0);
    };
    if lies_inside(passage.place, end) {
        None
    } else if passage.place.n > 0 {
        Some(if passage.to_left { 1 } else { -1 })
    } else {
        Some(0)
    }
}
