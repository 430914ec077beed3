//! How much of a path an outline holds.

ghost use Rattle.std.specs.Prelude.{◌≡◌, pos, int_lt, [], ◌∷◌};
ghost use Rattle.std.specs.Bool.{then_some};
ghost use Rattle.std.specs.List.{FoldsTo};
ghost use Rattle.std.specs.Option.{option_to_list};
ghost use Rattle.fix_interval.specs.Tree.{Known, Min, Sub, enc};
ghost use Rattle.scene_geom.specs.Direction.{FitsDirection};
ghost use Rattle.scene_geom.specs.Fraction.{FitsEnd};
ghost use Rattle.scene_geom.specs.Crossing.{passage_of};
ghost use Rattle.scene_geom.specs.Outline.{ring, area2_of, passages_of, meets_of};
ghost use Rattle.path_shape.specs.Shape.{IsPath};
ghost use Rattle.path_shape.specs.Forms.{one_form};
ghost use Rattle.path_shape.specs.Outlines.{place_form, length_inside};
ghost use Rattle.path_shape.specs.Stretches.{length_on_path};
ghost use Rattle.path_shape.specs.inner.Stretches.{length_along};
ghost use Rattle.path_shape.specs.inner.Stretches.{joined_lengths, walked};

use super::legs::Legs;
use super::path::Path;
use super::stretch::{Stretch, place};
use fix_interval::{Iv, add, exact, neg};
use scene_geom::{Dir, Frac, Passage, Pt, Side, area2, meets, passes, rest_after};

/// How much of a stretch of a path an outline holds, as a fraction of the plan length. None where the outline doesn't meet
/// the path.
pub fn length_on(outline: &[Pt], path: &Path, stretch: &Stretch) -> Option<Iv>
    requires { IsPath path.now }
    ensures { result ≡ length_on_path outline.now path.now stretch.now }
{
    match path.legs {
        Legs::One(dir) => {
            if meets(outline, path.s, dir, Frac { n: 1, d: 1 }) {
                Some(length_inside(outline, path.s, dir, *stretch))
            } else {
                None
            }
        }
        Legs::Two(first, second, p) => joined(
            on_first_leg(outline, path.s, first, p, stretch),
            on_second_leg(outline, path.r, second, rest_after(p), stretch),
        ),
    }
}

/// How much of a stretch an outline holds on the leg from the source to a wall. None where it doesn't meet that leg.
fn on_first_leg(outline: &[Pt], from: Pt, dir: Dir, end: Frac, stretch: &Stretch) -> Option<Iv>
    requires dir { FitsDirection dir }
    requires end { FitsEnd end }
    ensures { result ≡ then_some (meets_of outline.now from dir end)
        (enc (length_inside outline.now from dir (Known stretch.now.from)
        (Min (Known stretch.now.to) (place_form end)))) }
{
    if meets(outline, from, dir, end) {
        Some(length_inside(outline, from, dir, stretch.up_to(place(end))))
    } else {
        None
    }
}

/// How much of it an outline holds on the leg from the receiver to the wall, on which places count from the receiver.
fn on_second_leg(outline: &[Pt], from: Pt, dir: Dir, end: Frac, stretch: &Stretch) -> Option<Iv>
    requires dir { FitsDirection dir }
    requires end { FitsEnd end }
    ensures { result ≡ then_some (meets_of outline.now from dir end)
        (enc (length_inside outline.now from dir (Sub one_form (Known stretch.now.to))
        (Min (Sub one_form (Known stretch.now.from)) (place_form end)))) }
{
    if meets(outline, from, dir, end) {
        Some(length_inside(outline, from, dir, stretch.turned().up_to(place(end))))
    } else {
        None
    }
}

/// The lengths on both legs, of which one that isn't met adds nothing. None where neither is met.
fn joined(first: Option<Iv>, second: Option<Iv>) -> Option<Iv>
    ensures { result ≡ joined_lengths first second }
{
    match (first, second) {
        (None, None) => None,
        (first, second) => { Some(add(first.unwrap_or(exact(0)), second.unwrap_or(exact(0)))) }
    }
}

/// How much of a stretch an outline holds, on a line from a point along a direction.
fn length_inside(outline: &[Pt], from: Pt, dir: Dir, stretch: Stretch) -> Iv
    requires { FitsDirection dir }
    ensures { result ≡ length_along outline.now from dir stretch }
{
    let length = fold_passages(
        outline,
        from,
        dir,
        exact(0),
        |length: Iv, passage: Passage| -> Iv
            ensures { result ≡ walked (passage ∷ []) length stretch }
        { stretch.counted(length, place(passage.place), passage.to_left) },
    );
    if turns_right(outline) {
        neg(length)
    } else {
        length
    }
}

/// Whether the corners of an outline go round to the right, so that its area is negative.
pub fn turns_right(outline: &[Pt]) -> bool
    ensures { result ≡ int_lt (area2_of outline.now) (pos 0) }
{
    area2(outline) < 0
}

/// What `add` makes of a value, one after another, at each place where a side of an outline crosses the whole line from a
/// point along a direction. It is called in the order of the sides.
pub fn fold_passages<A, F: Fn(A, Passage) -> A>(
    outline: &[Pt],
    from: Pt,
    dir: Dir,
    start: A,
    add: F,
) -> A
    requires dir { FitsDirection dir }
    requires add { F.IsAlwaysCallable add }
    ensures { FoldsTo (λ a passage b. F.post add a passage b) start
        (passages_of (ring outline.now) from dir) result }
{
    let Some((first, rest)) = outline.split_first() else {
        return start;
    };
    let mut value = start;
    let mut corner = *first;
    for next in rest {
        let side = Side {
            from: corner,
            to: *next,
        };
        value = at_side(value, side, from, dir, &add);
        corner = *next;
    }
    let closing = Side {
        from: corner,
        to: *first,
    };
    at_side(value, closing, from, dir, &add)
}

/// What `add` makes of a value where a side crosses the line, and else the value.
#[inline(always)]
fn at_side<A, F: Fn(A, Passage) -> A>(value: A, side: Side, from: Pt, dir: Dir, add: &F) -> A
    requires dir { FitsDirection dir }
    requires add { F.IsAlwaysCallable add.now }
    ensures { FoldsTo (λ a passage b. F.post add.now a passage b) value
        (option_to_list (passage_of side from dir)) result }
{
    match passes(side, from, dir) {
        None => value,
        Some(passage) => add(value, passage),
    }
}
