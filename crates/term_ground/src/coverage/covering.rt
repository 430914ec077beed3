//! How much of each region of a path lies in a zone of ground.

ghost use Rattle.std.specs.Prelude.{◌≡◌, [], ◌∷◌};
ghost use Rattle.path_shape.specs.declared.path.Path.{Path};
ghost use Rattle.path_shape.specs.inner.Stretches.{walked};
ghost use Rattle.term_ground.specs.inner.Walks.{lengths_along, advanced};
ghost use Rattle.term_ground.specs.inner.Walks.{IsRoute, lengths_on_leg, lengths_on_path, joined_lengths};
ghost use Rattle.term_ground.specs.inner.Walks.{sums_of};
ghost use Rattle.term_ground.specs.inner.Walks as walks;

use crate::coverage::beside::lies_beside_leg;
use crate::extents::places::extent_at;
use crate::legs::leg::{Leg, Route};
use crate::legs::stretch::{Regional, Stretches};
use fix_interval::{add, exact, neg};
use path_shape::{fold_passages, place, turns_right};
use scene_geom::{Passage, Pt, meets};

/// How much of each region of a path an outline holds. None where the outline meets no leg.
pub(crate) fn lengths_on(outline: &[Pt], route: &Route) -> Option<Regional>
    ensures { (path : Path) → IsRoute route.now path → result ≡ lengths_on_path outline.now path }
{
    let first = on_leg(outline, &route.first);
    match &route.second {
        None => first,
        Some(leg) => joined(first, on_leg(outline, leg)),
    }
}

/// How much of each region an outline holds on a leg. None where the outline doesn't meet the leg.
fn on_leg(outline: &[Pt], leg: &Leg) -> Option<Regional>
    ensures { result ≡ lengths_on_leg outline.now leg.now }
{
    if lies_beside_leg(outline, leg) {
        return None;
    }
    if meets(outline, leg.start, leg.dir, leg.end) {
        Some(lengths_inside(outline, leg))
    } else {
        None
    }
}

/// The lengths on both legs, of which one that isn't met adds nothing.
fn joined(first: Option<Regional>, second: Option<Regional>) -> Option<Regional>
    ensures { result ≡ joined_lengths first second }
{
    match (first, second) {
        (None, None) => None,
        (first, second) => Some(sums(first.unwrap_or(nothing()), second.unwrap_or(nothing()))),
    }
}

fn sums(first: Regional, second: Regional) -> Regional
    ensures { result ≡ sums_of first second }
{
    Regional {
        source: add(first.source, second.source),
        middle: add(first.middle, second.middle),
        receiver: add(first.receiver, second.receiver),
    }
}

/// No length of any region.
fn nothing() -> Regional
    ensures { result ≡ walks.nothing }
{
    let zero = exact(0);
    Regional {
        source: zero,
        middle: zero,
        receiver: zero,
    }
}

/// How much of each region an outline holds on the whole line of a leg.
fn lengths_inside(outline: &[Pt], leg: &Leg) -> Regional
    ensures { result ≡ lengths_along outline.now leg.now.start leg.now.dir leg.now.stretches }
{
    let lengths = fold_passages(
        outline,
        leg.start,
        leg.dir,
        nothing(),
        |lengths: Regional, passage: Passage| -> Regional
            ensures { result ≡ advanced (walked (passage ∷ [])) lengths leg.entry.now.stretches }
        { with_passage(lengths, passage, leg) },
    );
    if turns_right(outline) {
        Regional {
            source: neg(lengths.source),
            middle: neg(lengths.middle),
            receiver: neg(lengths.receiver),
        }
    } else {
        lengths
    }
}

/// The lengths with what a passage adds or takes off.
#[inline(always)]
fn with_passage(lengths: Regional, passage: Passage, leg: &Leg) -> Regional
    ensures { result ≡ advanced (walked (passage ∷ [])) lengths leg.now.stretches }
{
    match (extent_at(passage.place), &leg.sections) {
        (Some(at), Some(sections)) => Regional {
            source: sections.source.counted(lengths.source, at, passage.to_left),
            middle: sections.middle.counted(lengths.middle, at, passage.to_left),
            receiver: sections
                .receiver
                .counted(lengths.receiver, at, passage.to_left),
        },
        _ => with_any_passage(lengths, passage, &leg.stretches),
    }
}

/// The same, whatever the ends.
#[cold]
#[inline(never)]
fn with_any_passage(lengths: Regional, passage: Passage, stretches: &Stretches) -> Regional
    ensures { result ≡ advanced (walked (passage ∷ [])) lengths stretches.now }
{
    let at = place(passage.place);
    let to_left = passage.to_left;
    Regional {
        source: stretches.source.counted(lengths.source, at, to_left),
        middle: stretches.middle.counted(lengths.middle, at, to_left),
        receiver: stretches.receiver.counted(lengths.receiver, at, to_left),
    }
}
