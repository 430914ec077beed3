//! The hands of a line.
ghost use Rattle.std.specs.Prelude.{◌≡◌, ◌≤◌, unsigned_abs};
ghost use Rattle.edge_chain.specs.Chain.{off_line};

use scene_geom::{Pt, orient};

/// A hand of a directed line of the plan.
#[derive(Clone, Copy, Debug, PartialEq, Eq)]
pub enum Hand {
    Left,
    Right,
}

impl Hand {
    /// How far a point lies to this hand of the line from `a` to `b`, times the length of that way, in mm²: positive
    /// strictly on this hand, negative strictly on the other, 0 on the line.
    pub fn off_line(self, a: Pt, b: Pt, point: Pt) -> i128
        ensures value { result ≡ off_line self a b point }
        ensures within { unsigned_abs result ≤ 128000000000000 }
    {
        match self {
            Hand::Left => orient(a, b, point),
            Hand::Right => -orient(a, b, point),
        }
    }
}
