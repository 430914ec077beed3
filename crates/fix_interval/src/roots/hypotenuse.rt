//! The root of a sum of two squares. Nearly all ends are short, so that their squares are numbers of 64 bits.

ghost use Rattle.std.specs.Prelude.{◌≡◌, ◌<◌, ◌≤◌, ◌^◌, ◌+◌, ◌*◌, ◌/◌, pos, neg_ℤ, Some, IfSome};
ghost use Rattle.std.specs.Int.{div_ceil};
ghost use Rattle.fix_interval.specs.Units.{unit};
ghost use Rattle.fix_interval.specs.Values.{add_of, mul_of, root_of};

use crate::iv::Iv;
use crate::products::mul;
use crate::roots::root;
use crate::roots::square_root::{root_down, root_up};
use crate::values::add;

/// How many units are one, 2^32.
const UNIT: u128 = 1 << 32;

/// The absolute values of short ends stay below this number of units, 2^47.
const SHORT: i128 = 1 << 47;

/// The least and the greatest absolute value of a quantity without 0 within, in units of 2^-32, each below 2^47.
#[derive(Clone, Copy, Drop)]
struct Size {
    least: u64,
    greatest: u64,
    ghost short: { greatest < 2 ^ 47 },
    ghost ordered: { least ≤ greatest },
}

/// The ends of a square in units of 2^-32, each below 2^62.
#[derive(Clone, Copy, Drop)]
struct Square {
    lo: u64,
    hi: u64,
    ghost short: { hi < 2 ^ 62 },
    ghost ordered: { lo ≤ hi },
}

/// The root of the sum of two squares, as that of the catheti a and b: the same as of the products and the sum.
pub fn hypotenuse(a: Iv, b: Iv) -> Iv
    ensures { result ≡ root_of (add_of (mul_of a a) (mul_of b b)) }
{
    match (short_square(a), short_square(b)) {
        (Some(first), Some(second)) => root_of_sum(first, second),
        _ => root_of_any(a, b),
    }
}

/// The same, whatever the ends.
#[cold]
#[inline(never)]
fn root_of_any(a: Iv, b: Iv) -> Iv
    ensures { result ≡ root_of (add_of (mul_of a a) (mul_of b b)) }
{
    root(add(mul(a, a), mul(b, b)))
}

/// The root of the sum of two squares.
#[inline(always)]
fn root_of_sum(a: Square, b: Square) -> Iv
    ensures { result ≡ root_of (record { lo = Some (pos (a.lo + b.lo)); hi = Some (pos (a.hi + b.hi)) }) }
{
    let low = root_down(u128::from(a.lo + b.lo) * UNIT);
    let high = root_up(u128::from(a.hi + b.hi) * UNIT, low);
    Iv::of_ends(Some(i128::from(low)), Some(high as i128))
}

/// The square of a quantity whose ends are short and that has no 0 within.
#[inline(always)]
fn short_square(x: Iv) -> Option<Square>
    ensures { IfSome result (λ s. mul_of x x ≡ record { lo = Some (pos s.lo); hi = Some (pos s.hi) }) }
{
    if let Some(size) = size_from_zero(x) {
        Some(size.squared())
    } else if let Some(size) = size_to_zero(x) {
        Some(size.squared())
    } else {
        None
    }
}

/// The absolute values of a quantity with short ends that isn't negative.
#[inline(always)]
fn size_from_zero(x: Iv) -> Option<Size>
    ensures { IfSome result (λ s. x ≡ record { lo = Some (pos s.least); hi = Some (pos s.greatest) }) }
{
    let (lo, hi) = (x.lo(), x.hi());
    if 0 <= lo && hi < SHORT {
        Some(Size {
            least: lo as u64,
            greatest: hi as u64,
        })
    } else {
        None
    }
}

/// The absolute values of a quantity with short ends that isn't positive: those of its ends, exchanged.
#[inline(always)]
fn size_to_zero(x: Iv) -> Option<Size>
    ensures { IfSome result
        (λ s. x ≡ record { lo = Some (neg_ℤ (pos s.greatest)); hi = Some (neg_ℤ (pos s.least)) }) }
{
    let (lo, hi) = (x.lo(), x.hi());
    if -SHORT < lo && hi <= 0 {
        Some(Size {
            least: -hi as u64,
            greatest: -lo as u64,
        })
    } else {
        None
    }
}

impl Size {
    /// The square, its low end rounded down and its high end rounded up.
    #[inline(always)]
    fn squared(self) -> Square
        ensures low { result.lo ≡ self.least * self.least / unit }
        ensures high { result.hi ≡ div_ceil (self.greatest * self.greatest) unit }
    {
        let least = u128::from(self.least);
        let greatest = u128::from(self.greatest);
        Square {
            lo: (least * least / UNIT) as u64,
            hi: ((greatest * greatest + (UNIT - 1)) / UNIT) as u64,
        }
    }
}
