//! Corners that lie beyond an edge of the box of two points: most parts do, which a few comparisons tell.
ghost use Rattle.std.specs.Prelude.{◌≡◌, int_lt};
ghost use Rattle.std.specs.List.{list_all};
ghost use Rattle.scene_geom.specs.declared.plan.Pt.{Pt as Place};
ghost use Rattle.scene_geom.specs.Direction.{direct};
ghost use Rattle.path_shape.specs.Outlines.{whole};
ghost use Rattle.touch_test.specs.Envelopes.{HoldsWay, lies_aside, lies_ahead, lies_beyond};
ghost use Rattle.touch_test.specs.inner.Boxes.{box_of};

use scene_geom::Pt;

/// The box of two points, in mm. It lies in the plan, so that 32 bits hold its edges.
#[derive(Clone, Copy)]
pub(crate) struct LineBox {
    west: i32,
    south: i32,
    east: i32,
    north: i32,
}

impl LineBox {
    /// The box of two points, which holds the way between them.
    pub(crate) fn of(p: Pt, q: Pt) -> LineBox
        ensures { HoldsWay (box_of result q) p (direct p q) whole }
    {
        LineBox {
            west: p.x.min(q.x),
            south: p.y.min(q.y),
            east: p.x.max(q.x),
            north: p.y.max(q.y),
        }
    }

    /// Whether all corners lie beyond the same edge of the box.
    pub(crate) fn is_passed_by(&self, corners: &[Pt]) -> bool
        ensures { (to : Place) → result ≡ lies_beyond (box_of self.now to) corners.now }
    {
        self.is_passed_aside(corners) || self.is_passed_ahead(corners)
    }

    /// Whether all corners lie to the west of the box, or all to the east.
    fn is_passed_aside(&self, corners: &[Pt]) -> bool
        ensures { (to : Place) → result ≡ lies_aside (box_of self.now to) corners.now }
    {
        self.is_passed_west(corners) || self.is_passed_east(corners)
    }

    /// Whether all corners lie to the south of the box, or all to the north.
    fn is_passed_ahead(&self, corners: &[Pt]) -> bool
        ensures { (to : Place) → result ≡ lies_ahead (box_of self.now to) corners.now }
    {
        self.is_passed_south(corners) || self.is_passed_north(corners)
    }

    /// Whether all corners lie to the west.
    fn is_passed_west(&self, corners: &[Pt]) -> bool
        ensures { result ≡ list_all (λ c. int_lt c.x self.now.west) corners.now }
    {
        corners.iter().all(|corner| corner.x < self.west)
    }

    /// Whether all corners lie to the east.
    fn is_passed_east(&self, corners: &[Pt]) -> bool
        ensures { result ≡ list_all (λ c. int_lt self.now.east c.x) corners.now }
    {
        corners.iter().all(|corner| self.east < corner.x)
    }

    /// Whether all corners lie to the south.
    fn is_passed_south(&self, corners: &[Pt]) -> bool
        ensures { result ≡ list_all (λ c. int_lt c.y self.now.south) corners.now }
    {
        corners.iter().all(|corner| corner.y < self.south)
    }

    /// Whether all corners lie to the north.
    fn is_passed_north(&self, corners: &[Pt]) -> bool
        ensures { result ≡ list_all (λ c. int_lt self.now.north c.y) corners.now }
    {
        corners.iter().all(|corner| self.north < corner.y)
    }
}
