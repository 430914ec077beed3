//! Outlines that lie beside a line of sight, found in 64 bits.

ghost use Rattle.std.specs.Prelude.{◌≡◌, IfSome, true, []};
ghost use Rattle.std.specs.Bool.{beq};
ghost use Rattle.std.specs.List.{list_all};
ghost use Rattle.scene_geom.specs.Crossing.{is_left};
ghost use Rattle.scene_geom.specs.Direction.{way};
ghost use Rattle.scene_geom.specs.Outline.{passages_of, ring};
ghost use Rattle.scene_geom.specs.inner.Step.{vector};

use crate::directions::direction::Dir;
use crate::directions::step::Step;
use crate::plan::Pt;

/// Whether all corners of an outline are on one hand of the whole line from a point along a
/// direction, so that no side crosses it. Directions too long for 64 bits, as those of the legs of
/// reflections, aren't tried: they answer false.
pub fn lies_beside(outline: &[Pt], from: Pt, dir: Dir) -> bool
    ensures { result ≡ true → passages_of (ring outline.now) from dir ≡ [] }
{
    let Some(along) = step_along(dir) else {
        return false;
    };
    let Some((first, rest)) = outline.split_first() else {
        return true;
    };
    let left = leaves_left(from, along, *first);
    are_on_hand(rest, from, along, left)
}

/// Whether all corners are on the left of a line, or all aren't.
fn are_on_hand(corners: &[Pt], from: Pt, along: Step, left: bool) -> bool
    ensures { result ≡ list_all (λ c. beq (is_left from (vector along) c) left) corners.now }
{
    for corner in corners {
        if leaves_left(from, along, *corner) != left {
            return false;
        }
    }
    true
}

/// Whether a corner is strictly left of a line.
fn leaves_left(from: Pt, along: Step, corner: Pt) -> bool
    ensures { result ≡ is_left from (vector along) corner }
{
    along.cross(Step::between(from, corner)) > 0
}

/// A direction's vector, where it is no longer than a way between two points.
fn step_along(dir: Dir) -> Option<Step>
    ensures { IfSome result (λ step. vector step ≡ way dir) }
{
    if dir.x.unsigned_abs() <= 8_000_000 && dir.y.unsigned_abs() <= 8_000_000 {
        Some(Step {
            x: dir.x as i64,
            y: dir.y as i64,
        })
    } else {
        None
    }
}
