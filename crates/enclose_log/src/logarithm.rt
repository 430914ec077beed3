//! The logarithm of an interval.

ghost use Rattle.std.specs.Prelude.{◌≡◌, ◌<◌, ◌≤◌, ◌*◌, ◌^◌, ◌≤ℤ◌, IsSomeAnd, IfSome, pos, neg_ℤ, Some};
ghost use Rattle.fix_interval.specs.Lg.{lg_of, decade_and_digits};

use crate::digits::digits;
use crate::start::Start;
use fix_interval::Iv;

/// The common logarithm of an interval that lies above 0, end by end: the low end rounded down and the
/// high end rounded up to 2^-32. An unbounded high end stays so. The levels of ISO 9613-2, as in equations
/// (5), (7) and (14), are ten or twenty times it.
///
/// Bounded ends are from -10 to 29, and from 1 on no logarithm is negative.
pub fn lg(a: Iv) -> Iv
    requires { IsSomeAnd a.lo (λ x. pos 1 ≤ℤ x) }
    ensures value { result ≡ lg_of a }
    ensures low { IsSomeAnd result.lo
        (λ z. (neg_ℤ (pos (10 * 2 ^ 32)) ≤ℤ z) × (z ≤ℤ pos (29 * 2 ^ 32))) }
    ensures high { IfSome result.hi
        (λ z. (neg_ℤ (pos (10 * 2 ^ 32)) ≤ℤ z) × (z ≤ℤ pos (29 * 2 ^ 32))) }
    ensures from_one { IsSomeAnd a.lo (λ x. pos (2 ^ 32) ≤ℤ x)
        → IsSomeAnd result.lo (λ z. pos 0 ≤ℤ z) }
{
    let Some(low) = a.low() else {
        return Iv::ALL;
    };
    let from = Start::of(low as u128);
    match a.high() {
        Some(high) => {
            let to = Start::of(high as u128);
            let (down, up) = digits(from.low, to.high);
            Iv::of_ends(end(from.decade, down), end(to.decade, up))
        }
        None => {
            let (down, _) = digits(from.low, from.high);
            Iv::of_ends(end(from.decade, down), None)
        }
    }
}

/// The end with this decade, counted from -10, and these digits.
fn end(decade: u32, digits: u64) -> Option<i128>
    requires decade { decade < 39 }
    requires digits { digits ≤ 2 ^ 32 }
    ensures { result ≡ Some (decade_and_digits decade digits) }
{
    Some((i128::from(decade) - 10) * (1 << 32) + i128::from(digits))
}
