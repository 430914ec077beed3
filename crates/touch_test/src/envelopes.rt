//! Boxes in plan round the paths of a receiver.
ghost use Rattle.std.specs.Prelude.{◌≡◌, true, ◌≤◌, ◌≤ℤ◌, ◌<ℤ◌, [], pos, unsigned_abs, int_lt};
ghost use Rattle.std.specs.List.{list_all};
ghost use Rattle.scene_geom.specs.Direction.{direct, FitsDirection};
ghost use Rattle.scene_geom.specs.Fraction.{FitsEnd};
ghost use Rattle.scene_geom.specs.Plan.{InPlan};
ghost use Rattle.part_grid.specs.Laws.{LiesBetween};
ghost use Rattle.path_shape.specs.Outlines.{whole};
ghost use Rattle.path_calc.specs.Segments.{FitsSegment};
ghost use Rattle.path_calc.specs.declared.bundles.segments.Seg.TheVariants.{Straight};
ghost use Rattle.touch_test.specs.Envelopes as form;
ghost use Rattle.touch_test.specs.Envelopes.{HoldsPath, HoldsPaths, HoldsPoint, HoldsSegment, HoldsWay, IsWider, TellsInPlace, TellsOf};

use part_grid::end_at;
use path_calc::{Bundle, Seg};
use scene_geom::{Dir, Frac, Pt, rest_after, unfold};

/// A box in plan round the ways along which the paths to a receiver at `to` read obstacles, zones and foliage, in mm; its
/// edges are part of it. A leg may end beyond the plan.
#[derive(Clone, Copy)]
pub struct Envelope {
    pub(crate) to: Pt,
    pub(crate) west: i128,
    pub(crate) south: i128,
    pub(crate) east: i128,
    pub(crate) north: i128,
}

impl Envelope {
    /// A box that holds the paths of these bundles to a receiver at a place.
    pub fn of(to: Pt, bundles: &[Bundle]) -> Envelope
        ensures paths { HoldsPaths result bundles.now }
        ensures tells { TellsOf result bundles.now }
        ensures to { result.to ≡ to }
    {
        let mut envelope = Envelope::at(to);
        for bundle in bundles {
            envelope = envelope.with_path(bundle);
        }
        envelope
    }

    /// A box for a receiver to which there is no path: any box serves.
    pub fn empty() -> Envelope
        ensures { TellsOf result [] }
    {
        Envelope::at(Pt::new(0, 0))
    }

    /// The box of a single point.
    fn at(to: Pt) -> Envelope
        ensures { result.to ≡ to }
    {
        Envelope {
            to,
            west: to.x.into(),
            south: to.y.into(),
            east: to.x.into(),
            north: to.y.into(),
        }
    }

    /// The box with the path of one bundle more in it besides: it tells of that bundle in the place of any of those of which
    /// it told.
    pub fn with_path(self, bundle: &Bundle) -> Envelope
        ensures wider { IsWider self result }
        ensures path { HoldsPath result bundle.now }
        ensures tells { TellsInPlace self result bundle.now }
    {
        let mut envelope = self.with_line(bundle.at, self.to);
        for segment in bundle.segs.items() {
            envelope = envelope.with_segment_beside(bundle.at, *segment);
        }
        envelope
    }

    /// The box with a segment in it besides, where it holds the way from a point to the receiver already: in the open, this
    /// is all of a path's trace.
    fn with_segment_beside(self, from: Pt, segment: Seg) -> Envelope
        requires line { HoldsWay self from (direct from self.to) whole }
        requires fits { FitsSegment segment }
        ensures wider { IsWider self result }
        ensures segment { HoldsSegment result segment }
    {
        if is_straight(segment, from, self.to) {
            self
        } else {
            self.with_segment(segment)
        }
    }

    /// The box with a segment in it besides.
    fn with_segment(self, segment: Seg) -> Envelope
        requires { FitsSegment segment }
        ensures wider { IsWider self result }
        ensures segment { HoldsSegment result segment }
    {
        match segment {
            Seg::Straight(p, q) => self.with_line(p, q),
            Seg::Legs(wall, s, r) => {
                let path = unfold(wall, s, r);
                self.with_way(s, path.first, path.p)
                    .with_way(r, path.second, rest_after(path.p))
            }
        }
    }

    /// The box with the way between two points in it besides.
    fn with_line(self, p: Pt, q: Pt) -> Envelope
        ensures wider { IsWider self result }
        ensures line { HoldsWay result p (direct p q) whole }
    {
        self.with_point(p).with_point(q)
    }

    /// The box with a point in it besides. Most boxes hold it already, since few sources lie farther out than all before them.
    fn with_point(self, p: Pt) -> Envelope
        ensures wider { IsWider self result }
        ensures point { HoldsPoint result p }
    {
        if self.holds(p) {
            self
        } else {
            self.with_reaches(Reach::at(p.x), Reach::at(p.y))
        }
    }

    /// Whether a point lies in the box.
    fn holds(&self, p: Pt) -> bool
        ensures { result ≡ true → HoldsPoint self.now p }
    {
        lies_between(p.x.into(), self.west, self.east)
            && lies_between(p.y.into(), self.south, self.north)
    }

    /// The box with a way in it besides, from a point along a direction up to an end.
    fn with_way(self, from: Pt, dir: Dir, end: Frac) -> Envelope
        requires dir { FitsDirection dir }
        requires end { FitsEnd end }
        ensures wider { IsWider self result }
        ensures way { HoldsWay result from dir end }
    {
        let x = Reach::of(from.x, dir.x, dir.w, end);
        let y = Reach::of(from.y, dir.y, dir.w, end);
        self.with_reaches(x, y)
    }

    /// The box with what reaches so far to the east and to the north in it besides.
    fn with_reaches(self, x: Reach, y: Reach) -> Envelope
        ensures wider { IsWider self result }
        ensures x { (result.west ≤ℤ x.least) × (x.most ≤ℤ result.east) }
        ensures y { (result.south ≤ℤ y.least) × (y.most ≤ℤ result.north) }
    {
        Envelope {
            to: self.to,
            west: self.west.min(x.least),
            south: self.south.min(y.least),
            east: self.east.max(x.most),
            north: self.north.max(y.most),
        }
    }

    /// Whether all corners lie beyond the same edge of the box.
    pub(crate) fn is_passed_by(&self, corners: &[Pt]) -> bool
        ensures { result ≡ form.lies_beyond self.now corners.now }
    {
        self.is_passed_aside(corners) || self.is_passed_ahead(corners)
    }

    /// Whether all corners lie to the west of the box, or all to the east.
    fn is_passed_aside(&self, corners: &[Pt]) -> bool
        ensures { result ≡ form.lies_aside self.now corners.now }
    {
        self.is_passed_west(corners) || self.is_passed_east(corners)
    }

    /// Whether all corners lie to the south of the box, or all to the north.
    fn is_passed_ahead(&self, corners: &[Pt]) -> bool
        ensures { result ≡ form.lies_ahead self.now corners.now }
    {
        self.is_passed_south(corners) || self.is_passed_north(corners)
    }

    /// Whether all corners lie to the west.
    fn is_passed_west(&self, corners: &[Pt]) -> bool
        ensures { result ≡ list_all (λ c. int_lt c.x self.now.west) corners.now }
    {
        corners
            .iter()
            .all(|corner| i128::from(corner.x) < self.west)
    }

    /// Whether all corners lie to the east.
    fn is_passed_east(&self, corners: &[Pt]) -> bool
        ensures { result ≡ list_all (λ c. int_lt self.now.east c.x) corners.now }
    {
        corners
            .iter()
            .all(|corner| self.east < i128::from(corner.x))
    }

    /// Whether all corners lie to the south.
    fn is_passed_south(&self, corners: &[Pt]) -> bool
        ensures { result ≡ list_all (λ c. int_lt c.y self.now.south) corners.now }
    {
        corners
            .iter()
            .all(|corner| i128::from(corner.y) < self.south)
    }

    /// Whether all corners lie to the north.
    fn is_passed_north(&self, corners: &[Pt]) -> bool
        ensures { result ≡ list_all (λ c. int_lt self.now.north c.y) corners.now }
    {
        corners
            .iter()
            .all(|corner| self.north < i128::from(corner.y))
    }
}

/// Whether a coordinate lies between two others, or is one of them.
fn lies_between(coordinate: i128, least: i128, most: i128) -> bool
    ensures { result ≡ true → (least ≤ℤ coordinate) × (coordinate ≤ℤ most) }
{
    least <= coordinate && coordinate <= most
}

/// Whether a segment is the straight one from a point to another.
fn is_straight(segment: Seg, from: Pt, to: Pt) -> bool
    ensures { result ≡ true → segment ≡ Straight from to }
{
    match segment {
        Seg::Straight(p, q) => p == from && q == to,
        Seg::Legs(..) => false,
    }
}

/// The least and the greatest coordinate of a way, rounded outward to whole millimetres.
#[derive(Clone, Copy)]
struct Reach {
    least: i128,
    most: i128,
}

impl Reach {
    /// That of a point with a coordinate.
    fn at(coordinate: i32) -> Reach
        ensures { (result.least ≡ coordinate) × (result.most ≡ coordinate) }
    {
        let whole = i128::from(coordinate);
        Reach {
            least: whole,
            most: whole,
        }
    }

    /// From the coordinate of the start, the same component of the direction and its divisor, up to an end.
    fn of(start: i32, component: i128, divisor: i128, end: Frac) -> Reach
        requires start { InPlan start }
        requires component { unsigned_abs component ≤ 2110000000000000000 }
        requires some { pos 0 <ℤ divisor }
        requires divisor { unsigned_abs divisor ≤ 68718952449 }
        requires end { FitsEnd end }
        ensures { LiesBetween result.least result.most start component divisor end }
    {
        let last = end_at(start, component, divisor, end);
        let first = i128::from(start);
        Reach {
            least: first.min(last),
            most: first.max(last + 1),
        }
    }
}
