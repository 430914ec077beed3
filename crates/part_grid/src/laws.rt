//! What the cells tell of crossings. Each function does nothing: its contract is the law.
ghost use Rattle.part_grid.specs.Laws.{LinesAreFloors, UnmetAreApart, CrossedAreNear, BlockingAreNear};
ghost use Rattle.part_grid.specs.Laws.{CrossedWaysAreBoxed, CrossedWaysAreNear, CrossedWaysAreMet};

/// The columns and rows of cells are the floors of coordinates over 65,536 mm.
pub fn lines_are_floors()
    ensures { LinesAreFloors }
{}

/// A side whose cells don't meet the walk of a segment neither crosses nor blocks it.
pub fn unmet_are_apart()
    ensures { UnmetAreApart }
{}

/// A side that crosses or blocks a segment is among what is near it.
pub fn crossed_are_near()
    ensures crossing { CrossedAreNear }
    ensures blocking { BlockingAreNear }
{}

/// A side that crosses a way strictly between its start and its end has cells that meet those of each box that holds
/// the way. The ends of a leg, rounded outward to whole millimetres, are the corners of such a box.
pub fn crossed_ways_are_boxed()
    ensures { CrossedWaysAreBoxed }
{}

/// A side that crosses a way is among what is near a box that holds the way.
pub fn crossed_ways_are_near()
    ensures { CrossedWaysAreNear }
{}

/// A side that crosses a way strictly between its start and its end has cells that meet those of the way.
pub fn crossed_ways_are_met()
    ensures { CrossedWaysAreMet }
{}
