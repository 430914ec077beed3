//! Directions between points.

ghost use Rattle.std.specs.Prelude.{◌≡◌, ◌≤◌, ◌*ℤ◌, unsigned_abs};
ghost use Rattle.scene_geom.specs.Direction.{direct, way, FitsDirection};
ghost use Rattle.scene_geom.specs.inner.Step.{vector};
ghost use Rattle.scene_geom.specs.Vector.{cross};

use crate::directions::direction::Dir;
use crate::directions::step::Step;
use crate::plan::Pt;

/// The direction from `p` to `q`, with the divisor 1, so that `q` lies at the place 1.
pub fn dir_of(p: Pt, q: Pt) -> Dir
    ensures value { result ≡ direct p q }
    ensures fits { FitsDirection result }
{
    let step = Step::between(p, q);
    Dir {
        x: i128::from(step.x),
        y: i128::from(step.y),
        w: 1,
    }
}

/// The cross product of a direction's vector and a way between two points: positive where the way
/// turns left.
pub fn turn_from(dir: Dir, step: Step) -> i128
    requires { FitsDirection dir }
    ensures value { result ≡ cross (way dir) (vector step) }
    ensures within { unsigned_abs result ≤ 33760000000000000000000000 }
{
    times(dir.x, step.y) - times(dir.y, step.x)
}

/// A component of a direction times one of a way between two points. Both hold in 64 bits, so that one multiplication
/// gives the product.
fn times(component: i128, step: i64) -> i128
    requires component { unsigned_abs component ≤ 2110000000000000000 }
    requires step { unsigned_abs step ≤ 8000000 }
    ensures value { result ≡ component *ℤ step }
    ensures within { unsigned_abs result ≤ 16880000000000000000000000 }
{
    i128::from(component as i64) * i128::from(step)
}
