//! A walk round an outline: where it crosses the line of a direct path, and how much of each region it holds.

ghost use Rattle.std.specs.Prelude.{◌≡◌, ◌<◌, ◌≤◌, ◌^◌, ◌+ℤ◌, IfSome, pos, true, false, not, ◌||◌, unsigned_abs};
ghost use Rattle.std.specs.Bool.{beq};
ghost use Rattle.std.specs.List.{FoldsTo, list_all};
ghost use Rattle.std.specs.Option.{option_to_list};
ghost use Rattle.std.specs.Ordering.{int_eq};
ghost use Rattle.scene_geom.specs.Crossing.{is_left, passage_of};
ghost use Rattle.scene_geom.specs.Direction.{direct};
ghost use Rattle.scene_geom.specs.Fraction.{is_inside};
ghost use Rattle.scene_geom.specs.Outline.{turn_of, meets_of};
ghost use Rattle.scene_geom.specs.Point.{from_to};
ghost use Rattle.path_shape.specs.Outlines.{whole};
ghost use Rattle.term_ground.specs.inner.Lines.{Adds, IsWalk};
ghost use Rattle.term_ground.specs.inner.Walks.{lengths_along, nothing};
ghost use Rattle.term_ground.specs.inner.Extents.{regional_of, AreSections};
ghost use Rattle.term_ground.specs.declared.coverage.line.Line.{Line};
ghost use Rattle.term_ground.specs.declared.legs.stretch.Stretches.{Stretches};

use crate::coverage::crossed::Crossed;
use crate::coverage::line::Line;
use crate::extents::extent::{Extent, Extents};
use crate::extents::places::place_on;
use path_shape::turns_right;
use scene_geom::{Frac, Passage, Pt, Side};

/// A winding stays below this absolute value.
const WINDING_LIMIT: u64 = 1 << 62;

impl Crossed {
    /// None of the sides.
    #[tactic(auto, unfolding(fix_interval::specs::Values::ratio_of, fix_interval::specs::Units::unit))]
    fn none() -> Crossed
        ensures between { result.between ≡ false }
        ensures winding { result.winding ≡ pos 0 }
        ensures lengths { regional_of result.lengths ≡ nothing }
    {
        let zero = Extent { lo: 0, hi: 0 };
        Crossed {
            between: false,
            winding: 0,
            lengths: Extents {
                source: zero,
                middle: zero,
                receiver: zero,
            },
        }
    }

    /// Whether the outline meets the path.
    pub(crate) fn is_met(&self) -> bool
        ensures { result ≡ (self.now.between || not (int_eq self.now.winding (pos 0))) }
    {
        self.between || self.winding != 0
    }

    /// How much of each region the outline holds whose sides they are.
    pub(crate) fn held(&self, outline: &[Pt]) -> Extents
        ensures { (line : Line) (stretches : Stretches) → IsWalk line outline.now self.now
            → AreSections line.sections stretches → regional_of result
            ≡ lengths_along outline.now line.s (direct line.s line.r) stretches }
    {
        let lengths = self.lengths;
        if turns_right(outline) {
            Extents {
                source: lengths.source.negated(),
                middle: lengths.middle.negated(),
                receiver: lengths.receiver.negated(),
            }
        } else {
            lengths
        }
    }

    /// Whether one of them crosses the path itself, or one does that crosses its line at this place.
    #[inline(always)]
    fn crosses_at(self, place: Frac) -> bool
        ensures { result ≡ (self.between || is_inside place whole) }
    {
        self.between || is_between(place)
    }

    /// How often they wind round the source with the one of a passage.
    #[inline(always)]
    fn wound_at(self, passage: Passage) -> Option<i64>
        ensures value { IfSome result (λ winding. winding ≡ self.winding +ℤ turn_of passage) }
        ensures fits { IfSome result (λ winding. unsigned_abs winding < 2 ^ 62) }
    {
        let winding = self.winding + turn(passage);
        if winding.unsigned_abs() < WINDING_LIMIT {
            Some(winding)
        } else {
            None
        }
    }

    /// One side more. None where 64 bits don't hold what it adds.
    #[inline(always)]
    fn with(self, passage: Passage, line: &Line) -> Option<Crossed>
        ensures { IfSome result (λ after. Adds line.now self passage after) }
    {
        let place = place_on(passage.place)?;
        let to_left = passage.to_left;
        let (lengths, sections) = (self.lengths, line.sections);
        Some(Crossed {
            between: self.crosses_at(passage.place),
            winding: self.wound_at(passage)?,
            lengths: Extents {
                source: sections.source.extended(lengths.source, place, to_left)?,
                middle: sections.middle.extended(lengths.middle, place, to_left)?,
                receiver: sections
                    .receiver
                    .extended(lengths.receiver, place, to_left)?,
            },
        })
    }
}

/// Whether a place lies strictly between both ends of a path.
#[inline(always)]
fn is_between(place: Frac) -> bool
    ensures { result ≡ is_inside place whole }
{
    0 < place.n && place.n < place.d
}

/// By how much a side winds round the source.
#[inline(always)]
fn turn(passage: Passage) -> i64
    ensures value { result ≡ turn_of passage }
    ensures small { unsigned_abs result ≤ 1 }
{
    if passage.place.n <= 0 {
        0
    } else if passage.to_left {
        1
    } else {
        -1
    }
}

/// Whether all corners of an outline are on one hand of the line of a path, so that it doesn't meet the path.
pub(crate) fn lies_beside(outline: &[Pt], line: &Line) -> bool
    ensures { result ≡ true
        → meets_of outline.now line.now.s (direct line.now.s line.now.r) whole ≡ false }
{
    let Some((first, rest)) = outline.split_first() else {
        return true;
    };
    are_on_hand(rest, line, line.leaves_left(*first))
}

/// Whether all corners are on the left of the line, or all aren't.
fn are_on_hand(corners: &[Pt], line: &Line, left: bool) -> bool
    ensures { result
        ≡ list_all (λ c. beq (is_left line.now.s (from_to line.now.s line.now.r) c) left) corners.now }
{
    for corner in corners {
        if line.leaves_left(*corner) != left {
            return false;
        }
    }
    true
}

/// What the sides of an outline come to that cross the line of a path. None where 64 bits don't hold it.
pub(crate) fn walk(outline: &[Pt], line: &Line) -> Option<Crossed>
    ensures { IfSome result (λ crossed. IsWalk line.now outline.now crossed) }
{
    let mut crossed = Crossed::none();
    let Some((first, rest)) = outline.split_first() else {
        return Some(crossed);
    };
    let first_left = line.leaves_left(*first);
    let mut corner = *first;
    let mut left = first_left;
    for next in rest {
        let side = Side {
            from: corner,
            to: *next,
        };
        let next_left = line.leaves_left(*next);
        crossed = at_side(crossed, side, left, next_left, line)?;
        corner = *next;
        left = next_left;
    }
    let closing = Side {
        from: corner,
        to: *first,
    };
    at_side(crossed, closing, left, first_left, line)
}

/// The same with a side more, of which it is known whether its ends are left of the line.
#[inline(always)]
fn at_side(
    crossed: Crossed,
    side: Side,
    from_left: bool,
    to_left: bool,
    line: &Line,
) -> Option<Crossed>
    requires from { from_left ≡ is_left line.now.s (from_to line.now.s line.now.r) side.from }
    requires to { to_left ≡ is_left line.now.s (from_to line.now.s line.now.r) side.to }
    ensures { IfSome result (λ after. FoldsTo (λ a passage b. Adds line.now a passage b) crossed
        (option_to_list (passage_of side line.now.s (direct line.now.s line.now.r))) after) }
{
    if from_left == to_left {
        return Some(crossed);
    }
    match line.passage(side) {
        None => Some(crossed),
        Some(passage) => crossed.with(passage, line),
    }
}
