//! Where sides cross a line of sight.

ghost use Rattle.std.specs.Prelude.{◌≡◌, ◌≤◌, ◌*ℤ◌, unsigned_abs, IfSome};
ghost use Rattle.scene_geom.specs.Crossing.{crosses_of, blocks_of, hits_of, passage_of};
ghost use Rattle.scene_geom.specs.Crossing.{are_opposite};
ghost use Rattle.scene_geom.specs.Direction.{FitsDirection};
ghost use Rattle.scene_geom.specs.Fraction.{FitsPlace, FitsCrossing};

use crate::directions::aims::turn_from;
use crate::directions::direction::Dir;
use crate::directions::step::Step;
use crate::directions::turns::turn;
use crate::fractions::fraction::Frac;
use crate::fractions::places::{fraction, inner_fraction};
use crate::plan::{Pt, Side};

/// A side's crossing with a whole line: its place, in units of the line's direction, and whether the
/// side leads to the left of the line there.
#[derive(Clone, Copy, Debug, PartialEq, Eq)]
pub struct Passage {
    pub place: Frac,
    pub to_left: bool,
}

/// Where a side crosses strictly between `p` and `q`, as a fraction of the way from `p` to `q`. None
/// where it doesn't: one end of the side has to lie strictly left of the line, and the other not.
pub fn crosses(side: Side, p: Pt, q: Pt) -> Option<Frac>
    ensures value { result ≡ crosses_of side p q }
    ensures fits { IfSome result FitsCrossing }
{
    let line = Step::between(p, q);
    let start = Step::between(p, side.from);
    let before = line.cross(start);
    let after = line.cross(Step::between(p, side.to));
    if (before > 0) == (after > 0) {
        return None;
    }
    let reached = start.cross(Step::between(side.from, side.to));
    inner_fraction(i128::from(reached), i128::from(after - before))
}

/// Whether a side and the way from `p` to `q` cross properly: the ends of each lie strictly on
/// different sides of the other.
pub fn blocks(side: Side, p: Pt, q: Pt) -> bool
    ensures { result ≡ blocks_of side p q }
{
    opposite(turn(p, q, side.from), turn(p, q, side.to))
        && opposite(turn(side.from, side.to, p), turn(side.from, side.to, q))
}

/// Where a side crosses the whole line from a point along a direction, in units of the direction,
/// with any sign, and the hand to which it leads there. None where the ends of the side don't lie on
/// different sides: one strictly left of the line, and the other not.
pub fn passes(side: Side, from: Pt, dir: Dir) -> Option<Passage>
    requires { FitsDirection dir }
    ensures value { result ≡ passage_of side from dir }
    ensures fits { IfSome result (λ passage. FitsPlace passage.place) }
{
    let start = Step::between(from, side.from);
    let before = turn_from(dir, start);
    let after = turn_from(dir, Step::between(from, side.to));
    let to_left = after > 0;
    if (before > 0) == to_left {
        return None;
    }
    let reached = start.cross(Step::between(side.from, side.to));
    Some(Passage {
        place: fraction(scaled(reached, dir), after - before),
        to_left,
    })
}

/// Where a side crosses the whole line from a point along a direction, in units of the direction,
/// with any sign. None where the ends of the side don't lie on different sides.
pub fn hits(side: Side, from: Pt, dir: Dir) -> Option<Frac>
    requires { FitsDirection dir }
    ensures value { result ≡ hits_of side from dir }
    ensures fits { IfSome result FitsPlace }
{
    match passes(side, from, dir) {
        None => None,
        Some(passage) => Some(passage.place),
    }
}

/// A product of two ways, in units of a direction's vector over its divisor.
fn scaled(reached: i64, dir: Dir) -> i128
    requires fits { FitsDirection dir }
    requires within { unsigned_abs reached ≤ 128000000000000 }
    ensures value { result ≡ reached *ℤ dir.w }
    ensures within { unsigned_abs result ≤ 8796025913472000000000000 }
{
    i128::from(reached) * dir.w
}

/// Whether one number is above 0 and the other below.
fn opposite(a: i64, b: i64) -> bool
    ensures { result ≡ are_opposite a b }
{
    a < 0 && 0 < b || b < 0 && 0 < a
}
