//! The plan of paths by way of a reflecting wall (ISO 9613-2, 7.5).

ghost use Rattle.std.specs.Prelude.{◌≡◌, ◌+◌, ◌^◌, ◌<◌, ◌<ℤ◌, ◌≤◌, ◌-ℤ◌, ◌*ℤ◌, pos, unsigned_abs};
ghost use Rattle.scene_geom.specs.Reflection.{are_on_one_side, CanReflect, FitsReflection};
ghost use Rattle.scene_geom.specs.Reflection.{have_one_sign, off_wall, squared_length, image_dir};
ghost use Rattle.scene_geom.specs.Reflection.{specular, to_image, unfolded, unfolded_square};
ghost use Rattle.scene_geom.specs.Reflection as form;
ghost use Rattle.scene_geom.specs.inner.Step.{vector};

use crate::directions::direction::Dir;
use crate::directions::step::Step;
use crate::directions::turns::turn;
use crate::fractions::fraction::Frac;
use crate::fractions::places::fraction;
use crate::plan::{Pt, Side};

/// The length of the longest side that reflects, in mm. With it 128 bits hold all products over the
/// legs.
const MAX_WALL_LENGTH: i64 = 262_143;

/// A path by way of a wall, unfolded: each leg leads towards the image of the path's other end in
/// the line of the wall.
#[derive(Clone, Copy, Debug, PartialEq, Eq)]
pub struct Reflection {
    /// The direction of the first leg, from the source.
    pub first: Dir,
    /// The direction of the second leg, from the receiver.
    pub second: Dir,
    /// The fraction of the path that lies before the specular point.
    pub p: Frac,
    /// The square of the path's length, in mm².
    pub square: Frac,
}

/// Whether two points lie strictly on one side of the line of a wall's side.
pub fn on_one_side(side: Side, p: Pt, q: Pt) -> bool
    ensures { result ≡ are_on_one_side side p q }
{
    one_sign(turn(side.from, side.to, p), turn(side.from, side.to, q))
}

/// Whether a side is at most 262,143 mm long, as one that reflects has to be.
pub fn is_short(side: Side) -> bool
    ensures { result ≡ form.is_short side }
{
    wall_square(side) <= MAX_WALL_LENGTH * MAX_WALL_LENGTH
}

/// The path from a source to a receiver by way of a side of a wall, which is at most 262,143 mm long
/// and has both of them strictly on one side of its line.
pub fn unfold(side: Side, s: Pt, r: Pt) -> Reflection
    requires { CanReflect side s r }
    ensures value { result ≡ unfolded side s r }
    ensures fits { FitsReflection result }
{
    Reflection {
        first: image_way(side, s, r),
        second: image_way(side, r, s),
        p: specular_place(side, s, r),
        square: square_of(side, s, r),
    }
}

/// The direction from `p` to the image of `q`.
fn image_way(side: Side, p: Pt, q: Pt) -> Dir
    requires { CanReflect side p q }
    ensures { result ≡ to_image side p q }
{
    let wall = Step::between(side.from, side.to);
    let off = turn(side.from, side.to, q);
    bent(
        Step::between(p, q),
        wall_square(side),
        wall.turned_left(),
        off,
    )
}

/// A direction by `way`, and back from the wall by twice the distance `off`.
fn bent(way: Step, square: i64, normal: Step, off: i64) -> Dir
    requires some { pos 0 <ℤ square }
    requires square { unsigned_abs square ≤ 68718952449 }
    requires x_within { unsigned_abs normal.x ≤ 262143 }
    requires y_within { unsigned_abs normal.y ≤ 262143 }
    requires off { unsigned_abs off ≤ 2970000000000 }
    ensures { result ≡ image_dir (vector way) square (vector normal) off }
{
    Dir {
        x: image_part(square, way.x, off, normal.x).into(),
        y: image_part(square, way.y, off, normal.y).into(),
        w: square.into(),
    }
}

/// A component of a direction towards an image.
fn image_part(square: i64, way: i64, off: i64, normal: i64) -> i64
    requires square { unsigned_abs square ≤ 68718952449 }
    requires way { unsigned_abs way ≤ 8000000 }
    requires off { unsigned_abs off ≤ 2970000000000 }
    requires normal { unsigned_abs normal ≤ 262143 }
    ensures value { result ≡ square *ℤ way -ℤ pos 2 *ℤ off *ℤ normal }
    ensures within { unsigned_abs result ≤ 2110000000000000000 }
{
    square * way - 2 * off * normal
}

/// The fraction of the path before the specular point.
fn specular_place(side: Side, s: Pt, r: Pt) -> Frac
    requires { CanReflect side s r }
    ensures { result ≡ specular side s r }
{
    let before = distance(side, s);
    fraction(before.into(), (before + distance(side, r)).into())
}

/// The square of the path's length.
fn square_of(side: Side, s: Pt, r: Pt) -> Frac
    requires { CanReflect side s r }
    ensures { result ≡ unfolded_square side s r }
{
    let across = distance(side, s) + distance(side, r);
    let ahead = Step::between(s, r).dot(Step::between(side.from, side.to));
    fraction(
        squares(across, ahead.unsigned_abs()) as i128,
        wall_square(side).into(),
    )
}

/// The sum of the squares of two products in mm².
fn squares(a: u64, b: u64) -> u128
    requires a { a ≤ 256000000000000 }
    requires b { b ≤ 128000000000000 }
    ensures value { result ≡ a ^ 2 + b ^ 2 }
    ensures within { result < 2 ^ 97 }
{
    u128::from(a) * u128::from(a) + u128::from(b) * u128::from(b)
}

/// The distance of a point from the line of a side, times the side's length, in mm².
fn distance(side: Side, p: Pt) -> u64
    ensures value { result ≡ off_wall side p }
    ensures within { result ≤ 128000000000000 }
{
    turn(side.from, side.to, p).unsigned_abs()
}

/// The square of a side's length, in mm².
fn wall_square(side: Side) -> i64
    ensures value { result ≡ pos (squared_length side) }
    ensures within { unsigned_abs result ≤ 128000000000000 }
{
    let wall = Step::between(side.from, side.to);
    wall.dot(wall)
}

/// Whether both numbers are above 0, or both below.
fn one_sign(a: i64, b: i64) -> bool
    ensures { result ≡ have_one_sign a b }
{
    a > 0 && b > 0 || a < 0 && b < 0
}
