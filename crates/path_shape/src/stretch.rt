//! Stretches of a path.

ghost use Rattle.std.specs.Prelude.{◌≡◌};
ghost use Rattle.fix_interval.specs.Tree.{enc};
ghost use Rattle.path_shape.specs.Outlines.{place_form};

use fix_interval::{Iv, add, exact, max, min, ratio, sub};
use scene_geom::Frac;

/// A stretch of a path, from one place to another, both fractions of its plan length.
#[derive(Clone, Copy, Drop)]
pub struct Stretch {
    pub from: Iv,
    pub to: Iv,
}

impl Stretch {
    ghost use Rattle.std.specs.Prelude.{◌≡◌};
    ghost use Rattle.fix_interval.specs.Tree.{Known, Add, Min, Sub, enc};
    ghost use Rattle.path_shape.specs.Forms.{one_form};
    ghost use Rattle.path_shape.specs.Stretches.{part_of};

    /// The stretch up to a place, if it doesn't end before.
    #[inline(always)]
    pub fn up_to(self, place: Iv) -> Stretch
        ensures from { result.from ≡ self.from }
        ensures to { result.to ≡ enc (Min (Known self.to) (Known place)) }
    {
        Stretch {
            from: self.from,
            to: min(self.to, place),
        }
    }

    /// The stretch with its places counted from the other end of the path.
    #[inline(always)]
    pub fn turned(self) -> Stretch
        ensures from { result.from ≡ enc (Sub one_form (Known self.to)) }
        ensures to { result.to ≡ enc (Sub one_form (Known self.from)) }
    {
        let one = exact(1);
        Stretch {
            from: sub(one, self.to),
            to: sub(one, self.from),
        }
    }

    /// A length and what lies of the stretch before a place, which is added where a side leads to the left there and else
    /// taken off.
    #[inline(always)]
    pub fn counted(self, length: Iv, place: Iv, to_left: bool) -> Iv
        ensures { result ≡ enc (Add (Known length) (part_of (Known place) to_left self)) }
    {
        let part = max(exact(0), sub(min(place, self.to), self.from));
        if to_left {
            add(length, part)
        } else {
            sub(length, part)
        }
    }
}

/// A place on a path as an interval.
#[inline(always)]
pub fn place(at: Frac) -> Iv
    ensures { result ≡ enc (place_form at) }
{
    ratio(at.n, at.d)
}
