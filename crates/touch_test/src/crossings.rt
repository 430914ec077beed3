//! How sides of obstacles and outlines of zones and foliage meet the plan segments of a trace.
ghost use Rattle.std.specs.Prelude.{◌≡◌, is_some, ◌||◌, All};
ghost use Rattle.std.specs.List.{list_any};
ghost use Rattle.scene_geom.specs.Direction.{FitsDirection};
ghost use Rattle.scene_geom.specs.Fraction.{FitsEnd};
ghost use Rattle.scene_geom.specs.Reflection.{FitsReflection};
ghost use Rattle.scene_parts.specs.Parts.{sides_of};
ghost use Rattle.image_source.specs.LegCuts.{place_up_to};
ghost use Rattle.path_calc.specs.Segments.{FitsSegment};
ghost use Rattle.touch_test.specs.Crossings as form;

use crate::boxes::LineBox;
use path_calc::Seg;
use scene_geom::{
    Dir, Frac, Pt, Reflection, Side, crosses, dir_of, hits, lies_inside, meets, rest_after, unfold,
};
use scene_parts::{Obstacle, side_of, sides};

/// Whether a side of an obstacle crosses one of some segments.
pub(crate) fn crosses_any(obstacle: &Obstacle, segments: &[Seg]) -> bool
    requires { All FitsSegment segments.now }
    ensures { result
        ≡ list_any (λ segment. list_any (λ side. form.crosses_segment side segment) (sides_of obstacle.now))
        segments.now }
{
    for segment in segments {
        if crosses_segment(obstacle, *segment) {
            return true;
        }
    }
    false
}

/// Whether a side of an obstacle crosses a segment.
fn crosses_segment(obstacle: &Obstacle, segment: Seg) -> bool
    requires { FitsSegment segment }
    ensures { result ≡ list_any (λ side. form.crosses_segment side segment) (sides_of obstacle.now) }
{
    match segment {
        Seg::Straight(p, q) => crosses_line(obstacle, p, q),
        Seg::Legs(wall, s, r) => crosses_reflection(obstacle, &unfold(wall, s, r), s, r),
    }
}

/// Whether a side of an obstacle crosses the way from `p` to `q`.
fn crosses_line(obstacle: &Obstacle, p: Pt, q: Pt) -> bool
    ensures { result ≡ list_any (λ side. form.crosses_line side p q) (sides_of obstacle.now) }
{
    if LineBox::of(p, q).is_passed_by(obstacle.points.items()) {
        return false;
    }
    for i in 0..sides(obstacle) {
        if crosses_way(side_of(obstacle, i), p, q) {
            return true;
        }
    }
    false
}

fn crosses_way(side: Side, p: Pt, q: Pt) -> bool
    ensures { result ≡ form.crosses_line side p q }
{
    crosses(side, p, q).is_some()
}

/// Whether a side of an obstacle crosses a leg of the path by way of a wall.
fn crosses_reflection(obstacle: &Obstacle, path: &Reflection, s: Pt, r: Pt) -> bool
    requires { FitsReflection path.now }
    ensures { result ≡ list_any (λ side. form.crosses_legs side path.now s r) (sides_of obstacle.now) }
{
    for i in 0..sides(obstacle) {
        if crosses_legs(side_of(obstacle, i), path, s, r) {
            return true;
        }
    }
    false
}

fn crosses_legs(side: Side, path: &Reflection, s: Pt, r: Pt) -> bool
    requires { FitsReflection path.now }
    ensures { result ≡ form.crosses_legs side path.now s r }
{
    crosses_leg(side, s, path.first, path.p)
        || crosses_leg(side, r, path.second, rest_after(path.p))
}

/// Whether a side crosses the way from a point along a direction, strictly before an end.
fn crosses_leg(side: Side, from: Pt, dir: Dir, end: Frac) -> bool
    requires dir { FitsDirection dir }
    requires end { FitsEnd end }
    ensures { result ≡ is_some (place_up_to end side from dir) }
{
    match hits(side, from, dir) {
        Some(place) => lies_inside(place, end),
        None => false,
    }
}

/// Whether an outline meets the way from `p` to `q`.
pub(crate) fn meets_line(outline: &[Pt], p: Pt, q: Pt) -> bool
    ensures { result ≡ form.meets_line outline.now p q }
{
    if LineBox::of(p, q).is_passed_by(outline) {
        return false;
    }
    meets(outline, p, dir_of(p, q), Frac { n: 1, d: 1 })
}

/// Whether an outline meets a leg of one of some segments.
pub(crate) fn meets_any_leg(outline: &[Pt], segments: &[Seg]) -> bool
    requires { All FitsSegment segments.now }
    ensures { result ≡ list_any (form.meets_leg outline.now) segments.now }
{
    for segment in segments {
        if meets_leg(outline, *segment) {
            return true;
        }
    }
    false
}

/// Whether an outline meets a leg of a segment.
fn meets_leg(outline: &[Pt], segment: Seg) -> bool
    requires { FitsSegment segment }
    ensures { result ≡ form.meets_leg outline.now segment }
{
    match segment {
        Seg::Straight(_, _) => false,
        Seg::Legs(wall, s, r) => {
            let path = unfold(wall, s, r);
            meets(outline, s, path.first, path.p)
                || meets(outline, r, path.second, rest_after(path.p))
        }
    }
}
