//! The sides that may reflect to a place, with what is known of the place there: a list that is made once, and asked for
//! each source.
ghost use Rattle.std.specs.Prelude.{◌≡◌, ◌≤◌, ◌<◌, ◌^◌, ◌++◌, ◌*ℤ◌, pos, length, IfOk, OnOk, unsigned_abs};
ghost use Rattle.scene_parts.specs.Parts.{sides_of, IsObstacle};
ghost use Rattle.scene_geom.specs.Point.{orient_of};
ghost use Rattle.scene_geom.specs.Reflection.{have_one_sign, squared_length};
ghost use Rattle.image_source.specs.Facing.{facing_of, facing_sides};
ghost use Rattle.image_source.specs.Facing as form;
ghost use Rattle.image_source.specs.inner.Facing.{strikes_by};
ghost use Rattle.image_source.specs.inner.Facing as inner;

use crate::placing::{FARTHEST, ahead, off_line, reach, step};
use part_grid::Owned;
use scene_geom::{Pt, area2};
use scene_parts::{NoMemory, Obstacle, Shape, side_of, sides};
use std::alloc::Global;
use std::marker::Model;

/// A side of an obstacle, with its numbers, and a place. What each source is asked by stands first: the side's step, the first
/// of the reaches along it at which a source isn't passed together with the place, and how many these are. Then come how far
/// the place is off the side's line, and the place. Reaches and distances are all times the side's length, in mm².
#[derive(Drop)]
pub struct FacingSide {
    dx: i32,
    dy: i32,
    first: i64,
    count: u64,
    off: i64,
    at: Pt,
    owned: Owned,
}

impl Model for FacingSide {
    ghost use Rattle.image_source.specs.Facing.{FacingSide as FacingSeen};
    ghost use Rattle.image_source.specs.inner.Facing.{IsPlaced};

    ghost Value = { FacingSeen };

    ghost view = { λ f. record { owned = f.owned; at = f.at } };

    ghost invariant = { λ f. IsPlaced f.owned.side f.at f.dx f.dy f.first f.count f.off };
}

impl FacingSide {
    /// A side of an obstacle, and a place that lies so far off its line.
    fn of(owned: Owned, at: Pt, off: i64) -> FacingSide
        requires long { 0 < squared_length owned.side }
        requires off_line { off ≡ orient_of owned.side.from owned.side.to at }
        requires within { unsigned_abs off ≤ 128000000000000 }
        ensures { result ≡ record { owned = owned; at = at } }
    {
        let side = owned.side;
        let dx = step(side.from.x, side.to.x);
        let dy = step(side.from.y, side.to.y);
        let receiver = reach(dx, dy, at);
        let first = least_reach(reach(dx, dy, side.from), receiver);
        let end = reach_end(reach(dx, dy, side.to), receiver);
        FacingSide {
            dx,
            dy,
            first,
            count: (end - first) as u64,
            off,
            at,
            owned,
        }
    }

    /// The side, with its numbers.
    pub fn owned(&self) -> Owned
        ensures { result ≡ self.now.owned }
    {
        self.owned
    }

    /// Whether the side may mirror a source at a place to what is at its own place, whatever the heights: both are strictly on
    /// one side of its line, and the specular point is strictly between its ends. What most sides fail by, that both places lie
    /// before the side or both behind it, is asked first, and in the caller's own loop.
    #[inline(always)]
    pub fn may_mirror(&self, s: Pt) -> bool
        ensures { result ≡ form.may_mirror self.now.owned.side s self.now.at }
    {
        if !is_among(reach(self.dx, self.dy, s), self.first, self.count) {
            return false;
        }
        self.mirrors(s)
    }

    /// The same, by what the side's line and both places say.
    #[inline(never)]
    fn mirrors(&self, s: Pt) -> bool
        ensures { result ≡ form.may_mirror self.now.owned.side s self.now.at }
    {
        let side = self.owned.side;
        let off = off_line(side, s);
        if !one_sign(off, self.off) {
            return false;
        }
        let end = ahead(side, side.to);
        strikes(
            ahead(side, s),
            off.abs(),
            ahead(side, self.at),
            self.off.abs(),
            end,
        )
    }
}

/// A place, and the sides that may reflect to it, in the order of obstacles and sides.
#[derive(Drop)]
pub struct FacingSides {
    at: Pt,
    sides: Vec<FacingSide>,
}

impl Model for FacingSides {
    ghost use Rattle.image_source.specs.Facing.{FacingSides as FacingSidesSeen};

    ghost Value = { FacingSidesSeen };

    ghost view = { λ f. record { at = f.at; sides = f.sides.items } };
}

impl FacingSides {
    /// The sides of some obstacles that may reflect to a place. An error where there is no memory; none is taken where no
    /// obstacle reflects.
    pub fn of(alloc: Global, obstacles: &[Obstacle], at: Pt) -> Result<FacingSides, NoMemory>
        requires few { length obstacles.now < 2 ^ 32 }
        ensures { IfOk result (λ facing. facing
            ≡ record { at = at; sides = facing_sides at obstacles.now }) }
    {
        let mut sides = Vec::new(alloc);
        let mut number = 0u32;
        for obstacle in obstacles {
            add_facing(&mut sides, obstacle, number, at)?;
            number += 1;
        }
        Ok(FacingSides { at, sides })
    }

    /// The place.
    pub fn at(&self) -> Pt
        ensures { result ≡ self.now.at }
    {
        self.at
    }

    /// The sides that may reflect to it.
    pub fn sides(&self) -> &[FacingSide]
        ensures { result.now ≡ self.now.sides }
    {
        self.sides.as_slice()
    }
}

/// Adds the sides of an obstacle that may reflect to a place. The obstacle has this number. On which hand of its sides its
/// outside lies is asked once.
fn add_facing(
    found: &mut Vec<FacingSide>,
    obstacle: &Obstacle,
    number: u32,
    at: Pt,
) -> Result<(), NoMemory>
    ensures { OnOk result (found.new.items ≡ found.old.items ++ facing_of at (number, obstacle.now)) }
{
    if obstacle.rho == 0 {
        return Ok(());
    }
    let hands = outside(obstacle);
    for index in 0..sides(obstacle) {
        let side = side_of(obstacle, index);
        let off = off_line(side, at);
        if is_in_front(off, hands.left, hands.right) {
            let owned = Owned {
                obstacle: number,
                index,
                side,
            };
            found.push(FacingSide::of(owned, at, off))?;
        }
    }
    Ok(())
}

/// The hands of a side of an obstacle, and whether each is outside.
#[derive(Clone, Copy)]
struct Hands {
    left: bool,
    right: bool,
}

/// On which hands of its sides an obstacle has its outside: on both, where it is a barrier.
fn outside(obstacle: &Obstacle) -> Hands
    ensures left { result.left ≡ inner.is_outside_left obstacle.now.shape obstacle.now.points }
    ensures right { result.right ≡ inner.is_outside_right obstacle.now.shape obstacle.now.points }
{
    match obstacle.shape {
        Shape::Barrier => Hands {
            left: true,
            right: true,
        },
        Shape::Building => {
            let area = area2(obstacle.points.items());
            Hands {
                left: area < 0,
                right: 0 < area,
            }
        }
    }
}

/// Whether what lies off the line of a side by this is in front of it, where these hands of it are outside.
fn is_in_front(off: i64, left: bool, right: bool) -> bool
    ensures { result ≡ inner.is_in_front off left right }
{
    if 0 < off { left } else { off < 0 && right }
}

/// Whether both numbers are above 0, or both below.
fn one_sign(a: i64, b: i64) -> bool
    ensures { result ≡ have_one_sign a b }
{
    0 < a && 0 < b || a < 0 && b < 0
}

/// The least reach along a side of a source that doesn't lie before it together with the receiver: by the reaches of the side's
/// start and of the receiver.
fn least_reach(start: i64, receiver: i64) -> i64
    requires { unsigned_abs start ≤ 64000000000000 }
    ensures { result ≡ inner.least_reach start receiver }
{
    if receiver <= start {
        start + 1
    } else {
        -FARTHEST
    }
}

/// The first reach along a side from which on sources lie behind it together with the receiver: by the reaches of the side's
/// end and of the receiver.
fn reach_end(end: i64, receiver: i64) -> i64
    ensures { result ≡ inner.reach_end end receiver }
{
    if end <= receiver { end } else { FARTHEST + 1 }
}

/// Whether a reach is one of so many, from a first one on.
fn is_among(place: i64, first: i64, count: u64) -> bool
    requires place { unsigned_abs place ≤ 64000000000000 }
    requires first { unsigned_abs first ≤ 64000000000001 }
    requires count { count ≤ 256000000000000 }
    ensures { result ≡ inner.is_among place first count }
{
    (place - first).cast_unsigned() < count
}

/// Whether the specular point lies strictly between the ends of a side: by how far along it source and receiver lie, how
/// far they are off its line, and how far along it its end lies, all times its length, in mm².
fn strikes(source: i64, before: i64, receiver: i64, behind: i64, end: i64) -> bool
    requires source { unsigned_abs source ≤ 128000000000000 }
    requires before { unsigned_abs before ≤ 128000000000000 }
    requires receiver { unsigned_abs receiver ≤ 128000000000000 }
    requires behind { unsigned_abs behind ≤ 128000000000000 }
    requires end { unsigned_abs end ≤ 128000000000000 }
    ensures { result ≡ strikes_by source before receiver behind end }
{
    let place = product(source, behind) + product(receiver, before);
    0 < place && place < product(end, before + behind)
}

/// A product of two numbers of the plan.
fn product(a: i64, b: i64) -> i128
    requires a { unsigned_abs a ≤ 128000000000000 }
    requires b { unsigned_abs b ≤ 256000000000000 }
    ensures value { result ≡ a *ℤ b }
    ensures within { unsigned_abs result ≤ 32768000000000000000000000000 }
{
    i128::from(a) * i128::from(b)
}
