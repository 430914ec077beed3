//! The components of a path across an edge and along it.

ghost use Rattle.std.specs.Prelude.{◌≡◌, ◌≤◌, ◌*◌, ◌+ℤ◌, ◌-ℤ◌, ◌*ℤ◌, pos, unsigned_abs};
ghost use Rattle.fix_interval.specs.Tree.{Const, enc};
ghost use Rattle.scene_geom.specs.Direction.{FitsDirection};
ghost use Rattle.scene_geom.specs.Point.{along};
ghost use Rattle.scene_geom.specs.Reflection as wall;
ghost use Rattle.term_barrier.specs.Edges.{FitsEdge};
ghost use Rattle.term_barrier.specs.Edges as form;

use fix_interval::{Iv, div, ratio, root};
use scene_geom::{Dir, Side};
use scene_parts::Edge;

/// X, the component of the path across an edge whose side is `length` long in mm, in metres.
#[tactic(auto, unfolding(crate::specs::Edges::across))]
pub(crate) fn across(edge: &Edge, length: Iv) -> Iv
    requires edge { FitsEdge edge.now }
    requires length { length ≡ enc (form.side_length edge.now.side) }
    ensures { result ≡ enc (form.across edge.now) }
{
    let (x, y) = step(edge.side);
    div(component(turn(edge.dir, x, y), edge.dir), length)
}

/// Y, the component of the path along an edge whose side is `length` long in mm, in metres.
#[tactic(auto, unfolding(crate::specs::Edges::beside))]
pub(crate) fn beside(edge: &Edge, length: Iv) -> Iv
    requires edge { FitsEdge edge.now }
    requires length { length ≡ enc (form.side_length edge.now.side) }
    ensures { result ≡ enc (form.beside edge.now) }
{
    let (x, y) = step(edge.side);
    div(component(advance(edge.dir, x, y), edge.dir), length)
}

/// A product of a direction and a side, over the divisor of the direction, in metres.
fn component(product: u128, dir: Dir) -> Iv
    requires product { product ≤ form.most_product }
    requires dir { FitsDirection dir }
    ensures { result ≡ enc (Const (pos product) (1000 * unsigned_abs dir.w)) }
{
    ratio(product as i128, 1000 * dir.w)
}

/// The cross product of a direction and a step, without its sign.
fn turn(dir: Dir, x: i64, y: i64) -> u128
    requires dir { FitsDirection dir }
    requires x { unsigned_abs x ≤ 8000000 }
    requires y { unsigned_abs y ≤ 8000000 }
    ensures value { result ≡ unsigned_abs (dir.x *ℤ y -ℤ dir.y *ℤ x) }
    ensures bound { result ≤ form.most_product }
{
    let step_x = i128::from(x);
    let step_y = i128::from(y);
    (dir.x * step_y - dir.y * step_x).unsigned_abs()
}

/// The dot product of a direction and a step, without its sign: a cross product with the step turned right.
fn advance(dir: Dir, x: i64, y: i64) -> u128
    requires dir { FitsDirection dir }
    requires x { unsigned_abs x ≤ 8000000 }
    requires y { unsigned_abs y ≤ 8000000 }
    ensures value { result ≡ unsigned_abs (dir.x *ℤ x +ℤ dir.y *ℤ y) }
    ensures bound { result ≤ form.most_product }
{
    turn(dir, -y, x)
}

/// The way along a side, in mm.
fn step(side: Side) -> (i64, i64)
    ensures x { result.0 ≡ (along side).x }
    ensures y { result.1 ≡ (along side).y }
    ensures x_within { unsigned_abs result.0 ≤ 8000000 }
    ensures y_within { unsigned_abs result.1 ≤ 8000000 }
{
    (
        i64::from(side.to.x) - i64::from(side.from.x),
        i64::from(side.to.y) - i64::from(side.from.y),
    )
}

/// The length of a side, in mm.
pub(crate) fn length_of(side: Side) -> Iv
    ensures { result ≡ enc (form.side_length side) }
{
    root(ratio(squared_length(side).into(), 1))
}

/// The square of the length of a side, in mm².
fn squared_length(side: Side) -> u64
    ensures { result ≡ wall.squared_length side }
{
    let (x, y) = step(side);
    square(x.unsigned_abs()) + square(y.unsigned_abs())
}

fn square(mm: u64) -> u64
    requires { mm ≤ 8000000 }
    ensures value { result ≡ mm * mm }
    ensures bound { result ≤ 64000000000000 }
{
    mm * mm
}
