//! Ways between points of the plan.

ghost use Rattle.std.specs.Prelude.{◌≡◌, ◌≤◌, unsigned_abs};

use crate::plan::Pt;

/// The way from one point of the plan to another, in mm. 64 bits hold the product of two such ways.
#[derive(Clone, Copy, Debug)]
pub struct Step {
    pub x: i64,
    pub y: i64,
    pub ghost x_within: { unsigned_abs x ≤ 8000000 },
    pub ghost y_within: { unsigned_abs y ≤ 8000000 },
}

impl Step {
    ghost use Rattle.std.specs.Prelude.{◌≡◌, ◌≤◌, unsigned_abs};
    ghost use Rattle.scene_geom.specs.Point.{at, from_to};
    ghost use Rattle.scene_geom.specs.inner.Step.{vector};
    ghost use Rattle.scene_geom.specs.Vector.{cross, dot, turned_left};

    /// The way from `a` to `b`.
    pub fn between(a: Pt, b: Pt) -> Self
        ensures { vector result ≡ from_to a b }
    {
        Step {
            x: i64::from(b.x) - i64::from(a.x),
            y: i64::from(b.y) - i64::from(a.y),
        }
    }

    /// The way from the origin to `a`.
    pub fn to(a: Pt) -> Self
        ensures { vector result ≡ at a }
    {
        Step {
            x: i64::from(a.x),
            y: i64::from(a.y),
        }
    }

    /// The cross product with `other`, in mm²: positive where `other` turns left.
    pub fn cross(self, other: Step) -> i64
        ensures value { result ≡ cross (vector self) (vector other) }
        ensures within { unsigned_abs result ≤ 128000000000000 }
    {
        self.x * other.y - self.y * other.x
    }

    /// The dot product with `other`, in mm².
    pub fn dot(self, other: Step) -> i64
        ensures value { result ≡ dot (vector self) (vector other) }
        ensures within { unsigned_abs result ≤ 128000000000000 }
    {
        self.cross(other.turned_left())
    }

    /// The way turned left by a right angle.
    pub fn turned_left(self) -> Self
        ensures { vector result ≡ turned_left (vector self) }
    {
        Step {
            x: -self.y,
            y: self.x,
        }
    }
}
