//! Laws of paths. Each function does nothing: its contract is the law.

ghost use Rattle.path_shape.specs.Shape.{PathsHaveLengths, DirectSquares, ReflectedSquares};

/// The plan length of every path, direct or by way of a wall, lies between 0 m and 2^24 m, and its
/// ends are at most 2^-15 m apart.
pub fn paths_have_lengths()
    ensures { PathsHaveLengths }
{}

/// The square of the plan length of every path lies between 0 m² and 2^30 m², and its ends are at most 2^-32 m² apart.
pub fn plan_squares_are_close()
    ensures direct { DirectSquares }
    ensures reflected { ReflectedSquares }
{}
