//! Points of the plan and sides between them.

ghost use Rattle.scene_geom.specs.Plan.{InPlan};

/// A point of the plan, in mm: both coordinates lie between -4,000,000 and 4,000,000, these ends
/// included.
#[derive(Clone, Copy, Debug, PartialEq, Eq)]
pub struct Pt {
    pub x: i32,
    pub y: i32,
    pub ghost x_in_plan: { InPlan x },
    pub ghost y_in_plan: { InPlan y },
}

impl Pt {
    ghost use Rattle.std.specs.Prelude.{◌≡◌};
    ghost use Rattle.scene_geom.specs.Plan.{InPlan};
    ghost use Rattle.scene_geom.specs.Point.{point_at};

    /// The point with these coordinates, in mm.
    pub const fn new(x: i64, y: i64) -> Self
        requires x_in_plan { InPlan x }
        requires y_in_plan { InPlan y }
        ensures x { result.x ≡ x }
        ensures y { result.y ≡ y }
        ensures place { result ≡ point_at x y }
    {
        Pt {
            x: x as i32,
            y: y as i32,
        }
    }
}

/// A straight side of a barrier, a building or a zone, directed from one corner to the next.
#[derive(Clone, Copy, Debug, PartialEq, Eq)]
pub struct Side {
    pub from: Pt,
    pub to: Pt,
}
