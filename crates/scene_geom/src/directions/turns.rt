//! To which hand three points turn.

ghost use Rattle.std.specs.Prelude.{◌≡◌, ◌≤◌, unsigned_abs};
ghost use Rattle.scene_geom.specs.Point.{orient_of};

use crate::directions::step::Step;
use crate::plan::Pt;

/// Twice the signed area of the triangle `a`, `b`, `c`, in mm²: positive where `c` lies strictly
/// left of the line from `a` to `b`, negative where it lies strictly right, 0 on the line.
pub fn orient(a: Pt, b: Pt, c: Pt) -> i128
    ensures value { result ≡ orient_of a b c }
    ensures within { unsigned_abs result ≤ 128000000000000 }
{
    i128::from(turn(a, b, c))
}

/// `orient` in 64 bits, which hold it for all points of the plan.
pub fn turn(a: Pt, b: Pt, c: Pt) -> i64
    ensures value { result ≡ orient_of a b c }
    ensures within { unsigned_abs result ≤ 128000000000000 }
{
    Step::between(a, b).cross(Step::between(a, c))
}
