//! Places on a path in 64 bits.

ghost use Rattle.std.specs.Prelude.{◌≡◌, ◌<◌, ◌≤◌, ◌≤ℤ◌, ◌*◌, ◌/◌, ◌^◌, IfSome, pos, unsigned_abs};
ghost use Rattle.std.specs.Int.{div_ceil};
ghost use Rattle.fix_interval.specs.Tree.{enc};
ghost use Rattle.fix_interval.specs.Values.{ratio_of};
ghost use Rattle.path_shape.specs.Outlines.{place_form};
ghost use Rattle.term_ground.specs.inner.Extents.{by_ends, IsPlaceOn};

use crate::extents::ONE;
use crate::extents::extent::Extent;
use path_shape::place;
use scene_geom::Frac;

/// Numerators stay below this absolute value.
const NUMERATOR_LIMIT: i128 = 1 << 62;

/// A divisor below this number times 2^16 fits 64 bits.
const DIVISOR_LIMIT: i128 = 1 << 48;

/// A place on a path. None where an end is too long for 64 bits.
#[inline(always)]
pub(crate) fn extent_at(at: Frac) -> Option<Extent>
    ensures { IfSome result (λ extent. enc (place_form at) ≡ by_ends extent) }
{
    if 0 < at.n && at.n < at.d && at.d < DIVISOR_LIMIT {
        Some(inner_place(at.n as u64, at.d as u64))
    } else {
        any_place(at)
    }
}

/// The same, wherever it is.
#[cold]
#[inline(never)]
fn any_place(at: Frac) -> Option<Extent>
    ensures { IfSome result (λ extent. enc (place_form at) ≡ by_ends extent) }
{
    Extent::of(place(at))
}

/// A place as it counts on a path: as its start where it lies before it, and as its end where it lies behind it. None
/// where it is too long for 64 bits.
#[inline(always)]
pub(crate) fn place_on(at: Frac) -> Option<Extent>
    ensures { IfSome result (λ place. IsPlaceOn place (enc (place_form at))) }
{
    if -NUMERATOR_LIMIT < at.n && at.n < NUMERATOR_LIMIT && at.d < DIVISOR_LIMIT {
        Some(short_place(at.n as i64, at.d as u64))
    } else {
        None
    }
}

/// The same of a short fraction, without a division where it lies beyond the path.
#[inline(always)]
fn short_place(n: i64, d: u64) -> Extent
    requires numerator { unsigned_abs n < 2 ^ 62 }
    requires positive { 0 < d }
    requires divisor { d < 2 ^ 48 }
    ensures { IsPlaceOn result (ratio_of n d) }
{
    if n <= 0 {
        return Extent { lo: 0, hi: 0 };
    }
    if d <= n.unsigned_abs() {
        return Extent { lo: ONE, hi: ONE };
    }
    inner_place(n.unsigned_abs(), d)
}

/// A place between both ends of the path.
#[inline(always)]
fn inner_place(n: u64, d: u64) -> Extent
    requires before { n < d }
    requires short { d < 2 ^ 48 }
    ensures value { by_ends result ≡ ratio_of (pos n) d }
    ensures low { pos 0 ≤ℤ result.lo }
    ensures high { result.hi ≤ℤ pos (2 ^ 32) }
{
    let (lo, hi) = in_units(n, d);
    Extent {
        lo: lo as i64,
        hi: hi as i64,
    }
}

/// A fraction below 1 in units of 2^-32, rounded down, and rounded up: the quotient in units of 2^-16, and then that of
/// the remainder.
#[inline(always)]
fn in_units(n: u64, d: u64) -> (u64, u64)
    requires before { n < d }
    requires short { d < 2 ^ 48 }
    ensures down { result.0 ≡ n * 2 ^ 32 / d }
    ensures up { result.1 ≡ div_ceil (n * 2 ^ 32) d }
    ensures ordered { result.0 ≤ result.1 }
    ensures small { result.1 ≤ 2 ^ 32 }
{
    let first = n * (1 << 16);
    let second = first % d * (1 << 16);
    let down = first / d * (1 << 16) + second / d;
    if second % d == 0 {
        (down, down)
    } else {
        (down, down + 1)
    }
}
