//! Quantities and stretches whose ends are kept in 64 bits, as those of nearly all paths can be.

pub(crate) mod extent;
pub(crate) mod places;
pub(crate) mod quotients;

ghost use Rattle.std.specs.Prelude.{◌≡◌, ◌<◌, ◌^◌, ◌≤ℤ◌, ◌+ℤ◌, IfSome, Some, pos, neg_ℤ, unsigned_abs};
ghost use Rattle.std.specs.Int.{int_min, int_max};
ghost use Rattle.fix_interval.specs.Interval.{Interval};
ghost use Rattle.fix_interval.specs.Tree.{Known, Add, enc};
ghost use Rattle.fix_interval.specs.Values.{add_of, sub_of, neg_of};
ghost use Rattle.path_shape.specs.declared.stretch.Stretch.{Stretch as StretchValue};
ghost use Rattle.path_shape.specs.Outlines.{signed};
ghost use Rattle.path_shape.specs.Stretches.{part_of};
ghost use Rattle.term_ground.specs.inner.Extents.{by_ends, regional_of, IsPlaceOn, IsSection};
ghost use Rattle.term_ground.specs.inner.Extents.{AreSections, part_at};

use crate::extents::extent::{Extent, Extents, Section, Sections};
use crate::legs::stretch::{Regional, Stretches};
use fix_interval::{Iv, add, sub};
use path_shape::Stretch;

/// Ends of extents stay below this absolute value, 2^62.
const LIMIT: i64 = 1 << 62;

/// The end of a path, the place 1, in units of 2^-32.
pub(crate) const ONE: i64 = 1 << 32;

impl Extent {
    /// A quantity in 64 bits. None where an end is too long for them.
    #[inline(always)]
    pub(crate) fn of(x: Iv) -> Option<Extent>
        ensures { IfSome result (λ extent. x ≡ by_ends extent) }
    {
        let (lo, hi) = (x.lo(), x.hi());
        if i128::from(-LIMIT) < lo && hi < i128::from(LIMIT) {
            Some(Extent {
                lo: lo as i64,
                hi: hi as i64,
            })
        } else {
            None
        }
    }

    /// As an interval.
    #[inline(always)]
    pub(crate) fn interval(self) -> Iv
        ensures { result ≡ by_ends self }
    {
        Iv::of_ends(Some(self.lo.into()), Some(self.hi.into()))
    }

    /// A quantity from one end to another. None where one of them is too long.
    #[inline(always)]
    fn between(lo: i64, hi: i64) -> Option<Extent>
        requires { lo ≤ℤ hi }
        ensures { IfSome result (λ extent. by_ends extent ≡ record { lo = Some lo; hi = Some hi }) }
    {
        if -LIMIT < lo && hi < LIMIT {
            Some(Extent { lo, hi })
        } else {
            None
        }
    }

    /// The sum. None where an end is too long.
    #[inline(always)]
    pub(crate) fn plus(self, other: Extent) -> Option<Extent>
        ensures { IfSome result (λ sum. by_ends sum ≡ add_of (by_ends self) (by_ends other)) }
    {
        Extent::between(self.lo + other.lo, self.hi + other.hi)
    }

    /// The difference. None where an end is too long.
    #[inline(always)]
    pub(crate) fn less(self, other: Extent) -> Option<Extent>
        ensures { IfSome result (λ rest. by_ends rest ≡ sub_of (by_ends self) (by_ends other)) }
    {
        Extent::between(self.lo - other.hi, self.hi - other.lo)
    }

    /// The quantity with the other sign.
    #[tactic(auto, unfolding(fix_interval::specs::Values::neg_of))]
    #[inline(always)]
    pub(crate) fn negated(self) -> Extent
        ensures { by_ends result ≡ neg_of (by_ends self) }
    {
        Extent {
            lo: -self.hi,
            hi: -self.lo,
        }
    }

    /// A length with a part that is added where a side leads to the left and else taken off. None where an end gets too
    /// long.
    #[inline(always)]
    fn counted(self, part: Extent, to_left: bool) -> Option<Extent>
        ensures { IfSome result (λ length. by_ends length
            ≡ enc (Add (Known (by_ends self)) (signed to_left (Known (by_ends part))))) }
    {
        if to_left {
            self.plus(part)
        } else {
            self.less(part)
        }
    }
}

impl Extents {
    /// A quantity of each region in 64 bits. None where an end is too long for them.
    pub(crate) fn of(quantities: Regional) -> Option<Extents>
        ensures { IfSome result (λ extents. quantities ≡ regional_of extents) }
    {
        match (
            Extent::of(quantities.source),
            Extent::of(quantities.middle),
            Extent::of(quantities.receiver),
        ) {
            (Some(source), Some(middle), Some(receiver)) => Some(Extents {
                source,
                middle,
                receiver,
            }),
            _ => None,
        }
    }

    /// As intervals.
    pub(crate) fn intervals(self) -> Regional
        ensures { result ≡ regional_of self }
    {
        Regional {
            source: self.source.interval(),
            middle: self.middle.interval(),
            receiver: self.receiver.interval(),
        }
    }
}

impl Section {
    /// A stretch in 64 bits. None where an end is too long for them or lies beyond the path.
    pub(crate) fn of(stretch: Stretch) -> Option<Section>
        ensures { IfSome result (λ section. IsSection section stretch) }
    {
        match (Extent::of(stretch.from), Extent::of(stretch.to)) {
            (Some(from), Some(to)) if 0 <= from.lo && to.hi <= ONE => Some(Section { from, to }),
            _ => None,
        }
    }

    /// A length and what lies of the stretch before a place, which is added where a side leads to the left there and else
    /// taken off.
    #[inline(always)]
    pub(crate) fn counted(self, length: Iv, place: Extent, to_left: bool) -> Iv
        ensures { (stretch : StretchValue) → IsSection self stretch
            → result ≡ enc (Add (Known length) (part_of (Known (by_ends place)) to_left stretch)) }
    {
        let part = self.before(place);
        if to_left {
            add(length, part)
        } else {
            sub(length, part)
        }
    }

    /// A length and what lies of the stretch before a place, which is added where a side leads to the left there and else
    /// taken off. None where an end gets too long.
    #[inline(always)]
    pub(crate) fn extended(self, length: Extent, place: Extent, to_left: bool) -> Option<Extent>
        ensures { IfSome result (λ after. (at : Interval) (stretch : StretchValue)
            → IsPlaceOn place at → IsSection self stretch
            → by_ends after ≡ enc (Add (Known (by_ends length)) (part_of (Known at) to_left stretch))) }
    {
        length.counted(self.part_before(place), to_left)
    }

    /// What lies of the stretch before a place, in 64 bits.
    #[inline(always)]
    fn part_before(self, place: Extent) -> Extent
        ensures { by_ends result ≡ part_at (by_ends place) (by_ends self.from) (by_ends self.to) }
    {
        Extent {
            lo: beyond(place.lo, self.to.lo, self.from.hi),
            hi: beyond(place.hi, self.to.hi, self.from.lo),
        }
    }

    /// What lies of the stretch before a place.
    #[inline(always)]
    fn before(self, place: Extent) -> Iv
        ensures { result ≡ part_at (by_ends place) (by_ends self.from) (by_ends self.to) }
    {
        Iv::of_ends(
            Some(beyond(place.lo, self.to.lo, self.from.hi).into()),
            Some(beyond(place.hi, self.to.hi, self.from.lo).into()),
        )
    }
}

/// How far a place, or an end before it, lies beyond a start.
#[inline(always)]
fn beyond(place: i64, end: i64, start: i64) -> i64
    requires place { unsigned_abs place < 2 ^ 62 }
    requires end { unsigned_abs end < 2 ^ 62 }
    requires start { unsigned_abs start < 2 ^ 62 }
    ensures { result ≡ int_max (pos 0) (int_min place end +ℤ neg_ℤ start) }
{
    (place.min(end) - start).max(0)
}

impl Sections {
    /// The regions in 64 bits. None where an end is too long for them.
    pub(crate) fn of(stretches: &Stretches) -> Option<Sections>
        ensures { IfSome result (λ sections. AreSections sections stretches.now) }
    {
        match (
            Section::of(stretches.source),
            Section::of(stretches.middle),
            Section::of(stretches.receiver),
        ) {
            (Some(source), Some(middle), Some(receiver)) => Some(Sections {
                source,
                middle,
                receiver,
            }),
            _ => None,
        }
    }
}
