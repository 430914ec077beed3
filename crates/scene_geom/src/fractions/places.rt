//! Places on a line of sight.

ghost use Rattle.std.specs.Prelude.{◌≡◌, pos, ◌≢◌, ◌<◌, ◌≤◌, ◌^◌, unsigned_abs, IfSome};
ghost use Rattle.scene_geom.specs.Fraction.{over, inner, is_inside, rest_of};
ghost use Rattle.scene_geom.specs.Fraction.{FitsPlace, FitsEnd, FitsCrossing};

use crate::fractions::fraction::Frac;

/// The fraction of `n` over `d`, with the divisor made positive.
pub fn fraction(n: i128, d: i128) -> Frac
    requires divides { d ≢ pos 0 }
    requires n_turns { unsigned_abs n < 2 ^ 127 }
    requires d_turns { unsigned_abs d < 2 ^ 127 }
    ensures { result ≡ over n d }
{
    if d < 0 {
        Frac { n: -n, d: -d }
    } else {
        Frac { n, d }
    }
}

/// The fraction of `n` over `d`, where it lies strictly between 0 and 1.
pub fn inner_fraction(n: i128, d: i128) -> Option<Frac>
    requires divides { d ≢ pos 0 }
    requires n_turns { unsigned_abs n < 2 ^ 127 }
    requires d_within { unsigned_abs d ≤ 256000000000000 }
    ensures value { result ≡ inner (over n d) }
    ensures fits { IfSome result FitsCrossing }
{
    if 0 < n && n < d || d < n && n < 0 {
        Some(fraction(n, d))
    } else {
        None
    }
}

/// Whether a place lies strictly between 0 and an end.
pub fn lies_inside(place: Frac, end: Frac) -> bool
    requires place_fits { FitsPlace place }
    requires end_fits { FitsEnd end }
    ensures { result ≡ is_inside place end }
{
    place.n > 0 && place.n * end.d < end.n * place.d
}

/// What is left of 1 after a fraction, as the second leg of a path by way of a wall ends there.
pub fn rest_after(place: Frac) -> Frac
    requires { FitsEnd place }
    ensures { result ≡ rest_of place }
{
    Frac {
        n: place.d - place.n,
        d: place.d,
    }
}
