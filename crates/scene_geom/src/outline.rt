//! Areas and extents of outlines.

ghost use Rattle.std.specs.Prelude.{◌≡◌, ◌≤◌, unsigned_abs};
ghost use Rattle.scene_geom.specs.Outline.{area2_of, extent_of};
ghost use Rattle.scene_geom.specs.Point.{at};
ghost use Rattle.scene_geom.specs.Vector.{cross};

use crate::directions::step::Step;
use crate::directions::turns::turn;
use crate::plan::Pt;

/// Twice the signed area of an outline, in mm²: positive where its corners go round to the left. The
/// last corner is joined to the first. 0 for no corners.
pub fn area2(outline: &[Pt]) -> i128
    ensures { result ≡ area2_of outline.now }
{
    let Some((first, rest)) = outline.split_first() else {
        return 0;
    };
    let mut corner = *first;
    let mut doubled = 0;
    for next in rest {
        doubled += i128::from(swept(corner, *next));
        corner = *next;
    }
    doubled + i128::from(swept(corner, *first))
}

/// What the side from `a` to `b` adds to twice the area, in mm².
fn swept(a: Pt, b: Pt) -> i64
    ensures value { result ≡ cross (at a) (at b) }
    ensures within { unsigned_abs result ≤ 128000000000000 }
{
    Step::to(a).cross(Step::to(b))
}

/// The greatest less the least of `orient(p, q, c)` over some points `c`, in mm²: their dimension
/// normal to the line from `p` to `q` (ISO 9613-2, 7.4), times that line's length. 0 for no points.
pub fn extent(points: &[Pt], p: Pt, q: Pt) -> i128
    ensures value { result ≡ extent_of points.now p q }
    ensures within { unsigned_abs result ≤ 256000000000000 }
{
    let Some((first, rest)) = points.split_first() else {
        return 0;
    };
    let mut least = turn(p, q, *first);
    let mut greatest = least;
    for c in rest {
        let height = turn(p, q, *c);
        least = least.min(height);
        greatest = greatest.max(height);
    }
    i128::from(greatest - least)
}
