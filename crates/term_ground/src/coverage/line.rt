//! Direct paths in 64 bits.

ghost use Rattle.std.specs.Prelude.{◌≡◌, ◌≢◌, ◌<◌, ◌≤◌, ◌^◌, IfSome, pos, unsigned_abs};
ghost use Rattle.path_shape.specs.Shape.{IsPath};
ghost use Rattle.scene_geom.specs.Crossing.{is_left, passage_of};
ghost use Rattle.scene_geom.specs.Direction.{direct};
ghost use Rattle.scene_geom.specs.Fraction.{over};
ghost use Rattle.scene_geom.specs.Point.{from_to, orient_of};
ghost use Rattle.term_ground.specs.inner.Lines.{IsLine};

use crate::extents::extent::{Extents, Sections};
use crate::legs::stretch::{regions_of, widths_of};
use path_shape::{Legs, Path};
use scene_geom::{Frac, Passage, Pt, Side, orient};

/// A direct path, of which 64 bits hold where its regions begin and end, and how wide they are.
#[derive(Clone, Copy, Drop)]
pub(crate) struct Line {
    pub s: Pt,
    pub r: Pt,
    pub sections: Sections,
    pub widths: Extents,
}

impl Line {
    /// A path as a line. None where it leads by way of a wall or 64 bits don't hold its regions.
    pub(crate) fn of(path: &Path) -> Option<Line>
        requires { IsPath path.now }
        ensures { IfSome result (λ line. IsLine line path.now) }
    {
        let Legs::One(_) = path.legs else {
            return None;
        };
        let stretches = regions_of(path);
        match (Sections::of(&stretches), Extents::of(widths_of(&stretches))) {
            (Some(sections), Some(widths)) => Some(Line {
                s: path.s,
                r: path.r,
                sections,
                widths,
            }),
            _ => None,
        }
    }

    /// Whether a corner is strictly left of the line.
    #[inline(always)]
    pub(crate) fn leaves_left(&self, corner: Pt) -> bool
        ensures { result ≡ is_left self.now.s (from_to self.now.s self.now.r) corner }
    {
        orient(self.s, self.r, corner) > 0
    }

    /// Where a side crosses the line, in units of the path, and the hand to which it leads there. None where its ends
    /// don't lie on different sides.
    #[inline(always)]
    pub(crate) fn passage(&self, side: Side) -> Option<Passage>
        ensures { result ≡ passage_of side self.now.s (direct self.now.s self.now.r) }
    {
        let before = turn(self.s, self.r, side.from);
        let after = turn(self.s, self.r, side.to);
        let to_left = after > 0;
        if (before > 0) == to_left {
            return None;
        }
        let reached = turn(self.s, side.from, side.to);
        Some(Passage {
            place: fraction(reached, after - before),
            to_left,
        })
    }
}

/// Twice the signed area of a triangle in mm², in 64 bits.
#[inline(always)]
fn turn(a: Pt, b: Pt, c: Pt) -> i64
    ensures value { result ≡ orient_of a b c }
    ensures within { unsigned_abs result ≤ 128000000000000 }
{
    orient(a, b, c) as i64
}

/// The fraction of `n` over `d`, with the divisor made positive.
#[inline(always)]
fn fraction(n: i64, d: i64) -> Frac
    requires divides { d ≢ pos 0 }
    requires n_turns { unsigned_abs n < 2 ^ 63 }
    requires d_turns { unsigned_abs d < 2 ^ 63 }
    ensures { result ≡ over n d }
{
    if d < 0 {
        Frac {
            n: (-n).into(),
            d: (-d).into(),
        }
    } else {
        Frac {
            n: n.into(),
            d: d.into(),
        }
    }
}
