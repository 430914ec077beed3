//! Laws of reflections. Each function does nothing: its contract is the law.
ghost use Rattle.image_source.specs.Laws.{LegsMeetWalls, LegCrossingsAreEdges, LegEdgesFit, ConditionIsSound};

/// The first leg meets the line of the wall at the specular point, where the test looks for it along the side.
pub fn legs_meet_walls()
    ensures { LegsMeetWalls }
{}

/// The crossings of both legs in a band are the edges on them, in the same order.
pub fn leg_crossings_are_edges()
    ensures { LegCrossingsAreEdges }
{}

/// The edges on the legs of a reflection fit the bounds under which screening is calculated.
pub fn leg_edges_fit()
    ensures { LegEdgesFit }
{}

/// Both formulas of the condition for the size of a surface are enclosed by their intervals, since they are sound.
pub fn condition_is_sound()
    ensures { ConditionIsSound }
{}
