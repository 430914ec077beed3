//! Laws of the plan's predicates. Each function does nothing: its contract is the law.

ghost use Rattle.scene_geom.specs.Laws.{UncrossedIsUnblocked, BlocksTurned, CrossingIsCommon};
ghost use Rattle.scene_geom.specs.Laws.{AreaReversed, MeetsReversed, LegsLeadToImages};

/// A side that doesn't cross the way between two points doesn't block it.
pub fn uncrossed_is_unblocked()
    ensures { UncrossedIsUnblocked }
{}

/// Exchanging the ends of a side doesn't change whether it blocks.
pub fn blocks_turned()
    ensures { BlocksTurned }
{}

/// Turning an outline round turns the sign of its area.
pub fn area_reversed()
    ensures { AreaReversed }
{}

/// Turning an outline round leaves what it meets.
pub fn meets_reversed()
    ensures { MeetsReversed }
{}

/// A crossing's place is the one point common to both lines.
pub fn crossing_is_common()
    ensures { CrossingIsCommon }
{}

/// A leg of a path by way of a wall leads to the image of the path's other end in the wall's line.
pub fn legs_lead_to_images()
    ensures { LegsLeadToImages }
{}
