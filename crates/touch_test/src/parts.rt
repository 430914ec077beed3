//! Parts that touch a path or a receiver where they are put or removed.
ghost use Rattle.std.specs.Prelude.{◌≡◌, ◌<◌, length, slice_get, All, Some};
ghost use Rattle.std.specs.List.{list_any};
ghost use Rattle.scene_parts.specs.Parts.{sides_of};
ghost use Rattle.image_source.specs.Mirrors.{has_mirror as is_mirror_of};
ghost use Rattle.path_calc.specs.Segments.{FitsSegment};
ghost use Rattle.touch_test.specs.Envelopes as far;
ghost use Rattle.touch_test.specs.Touches as form;
ghost use Rattle.touch_test.specs.Touches.{bundled};

use crate::crossings::{crosses_any, meets_any_leg, meets_line};
use crate::envelopes::Envelope;
use image_source::has_mirror;
use path_calc::{Bundle, Seg, within};
use scene_geom::{Pt, Side};
use scene_parts::{Ends, Obstacle, Part, Receiver, side_of, sides};

/// Whether a part touches the path of a bundle where it is put or removed.
pub(crate) fn part_touches(part: &Part, bundle: &Bundle, receiver: &Receiver) -> bool
    ensures { result ≡ form.part_touches (bundled receiver.now bundle.now) part.now }
{
    match part {
        Part::Source(source) => source.name.items() == bundle.source.items(),
        Part::Obstacle(obstacle) => {
            obstacle_touches(
                obstacle,
                ends_between(bundle, receiver),
                bundle.segs.items(),
            )
        }
        Part::Receiver(other) => other.name.items() == receiver.name.items(),
        _ => outline_touches(
            outline_of(part),
            ends_between(bundle, receiver),
            bundle.segs.items(),
        ),
    }
}

/// Whether a part may touch a path in a box to the receiver of a name.
pub(crate) fn part_may_touch(part: &Part, envelope: &Envelope, name: &[u8]) -> bool
    ensures { result ≡ far.part_may_touch envelope.now name.now part.now }
{
    match part {
        Part::Source(_) => true,
        Part::Obstacle(obstacle) => {
            obstacle.rho != 0 || !envelope.is_passed_by(obstacle.points.items())
        }
        Part::Receiver(other) => other.name.items() == name,
        _ => !envelope.is_passed_by(outline_of(part)),
    }
}

/// The outline of a part that touches by its outline alone, no corners for any other part.
fn outline_of(part: &Part) -> &[Pt]
    ensures { result.now ≡ form.outline_of part.now }
{
    match part {
        Part::Zone(zone) => zone.points.items(),
        Part::Foliage(foliage) => foliage.points.items(),
        _ => &[],
    }
}

/// The ends of the path of a bundle.
fn ends_between(bundle: &Bundle, receiver: &Receiver) -> Ends
    ensures { result ≡ (bundled receiver.now bundle.now).ends }
{
    Ends {
        s: bundle.at,
        hs: bundle.h,
        r: receiver.at,
        hr: receiver.h,
    }
}

/// Whether a side of an obstacle crosses a segment of a trace, or mirrors the source to the receiver.
fn obstacle_touches(obstacle: &Obstacle, ends: Ends, trace: &[Seg]) -> bool
    requires { All FitsSegment trace.now }
    ensures { result ≡ form.obstacle_touches ends trace.now obstacle.now }
{
    crosses_any(obstacle, trace) || mirrors(obstacle, ends)
}

/// Whether a side of an obstacle mirrors a source to a receiver.
fn mirrors(obstacle: &Obstacle, ends: Ends) -> bool
    ensures { result ≡ list_any (λ side. is_mirror_of obstacle.now side ends) (sides_of obstacle.now) }
{
    if obstacle.rho == 0 {
        return false;
    }
    for i in 0..sides(obstacle) {
        if has_mirror(obstacle, side_of(obstacle, i), ends) {
            return true;
        }
    }
    false
}

/// Whether an outline meets the direct line or a leg of a trace.
fn outline_touches(outline: &[Pt], ends: Ends, trace: &[Seg]) -> bool
    requires { All FitsSegment trace.now }
    ensures { result ≡ form.outline_touches ends trace.now outline.now }
{
    meets_line(outline, ends.s, ends.r) || meets_any_leg(outline, trace)
}

/// Whether a part is the receiver of a name.
pub(crate) fn is_receiver(part: &Part, name: &[u8]) -> bool
    ensures { result ≡ form.is_receiver name.now part.now }
{
    match part {
        Part::Receiver(receiver) => receiver.name.items() == name,
        _ => false,
    }
}

/// Whether a part is a source within reach of a receiver.
pub(crate) fn is_source_within(part: &Part, reach: u32, receiver: &Receiver) -> bool
    ensures { result ≡ form.is_source_within reach receiver.now part.now }
{
    match part {
        Part::Source(source) => within(reach, source.at, receiver.at),
        _ => false,
    }
}
