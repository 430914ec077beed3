//! A line from source to receiver, and the order of the points on one hand of it.
ghost use Rattle.std.specs.Prelude.{◌≡◌, ◌&&◌, ◌≤◌, ◌++◌, unsigned_abs, OnOk};
ghost use Rattle.edge_chain.specs.Chain.{off_line, is_beside, points_beside};
ghost use Rattle.edge_chain.specs.inner.Bearing.{bearing_order, turn_of};

use crate::hand::Hand;
use scene_geom::Pt;
use scene_parts::NoMemory;
use std::cmp::Ordering;

/// The line from a source to a receiver, and a hand of it.
#[derive(Clone, Copy)]
pub struct Base {
    pub s: Pt,
    pub r: Pt,
    pub hand: Hand,
}

impl Base {
    /// Adds the points that lie strictly on the hand, in their order.
    pub fn add_points_beside(self, points: &[Pt], beside: &mut Vec<Pt>) -> Result<(), NoMemory>
        ensures { OnOk result (beside.new.items
            ≡ beside.old.items ++ points_beside points.now self.s self.r self.hand) }
    {
        for point in points {
            if self.has_beside(*point) {
                beside.push(*point)?;
            }
        }
        Ok(())
    }

    /// The order of points by their bearing from the source, from the ray that is farthest off the receiver, and on one
    /// ray from the farthest point. Points that aren't on the hand come last.
    pub fn order(self, a: Pt, b: Pt) -> Ordering
        ensures { result ≡ bearing_order self.hand self.s self.r a b }
    {
        let (off_a, off_b) = (self.off(a), self.off(b));
        let turn = self.turn(a, b, off_a > 0 && off_b > 0);
        turn.cmp(&0).then(off_b.cmp(&off_a))
    }

    /// How far `b` lies to the hand of the ray from the source to `a`, and 0 where they aren't both on the hand.
    fn turn(self, a: Pt, b: Pt, both_beside: bool) -> i128
        requires { both_beside ≡ (is_beside self.hand self.s self.r a
            && is_beside self.hand self.s self.r b) }
        ensures value { result ≡ turn_of self.hand self.s self.r a b }
        ensures within { unsigned_abs result ≤ 128000000000000 }
    {
        if both_beside {
            self.hand.off_line(self.s, a, b)
        } else {
            0
        }
    }

    /// Whether a point lies strictly on the hand.
    fn has_beside(self, point: Pt) -> bool
        ensures { result ≡ is_beside self.hand self.s self.r point }
    {
        self.off(point) > 0
    }

    /// How far a point lies to the hand.
    fn off(self, point: Pt) -> i128
        ensures value { result ≡ off_line self.hand self.s self.r point }
        ensures within { unsigned_abs result ≤ 128000000000000 }
    {
        self.hand.off_line(self.s, self.r, point)
    }
}
