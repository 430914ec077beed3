//! Sums and products of quantities that aren't negative, in 64 bits.

pub(crate) mod amount;

ghost use Rattle.std.specs.Prelude.{◌≡◌, ◌+◌, ◌*◌, ◌/◌, ◌≤◌, ◌^◌, pos, neg_ℤ};
ghost use Rattle.std.specs.Int.{div_ceil};
ghost use Rattle.fix_interval.specs.Bounds.{AreBetween};
ghost use Rattle.fix_interval.specs.Tree.{Known, Add, enc};
ghost use Rattle.fix_interval.specs.Values.{add_of, mul_of};
ghost use Rattle.term_ground.specs.Quantities.{interval_of};
ghost use Rattle.term_ground.specs.Ground.{minus_one_and_a_half};

use crate::amounts::amount::Amount;
use fix_interval::Iv;

impl Amount {
    /// An interval from 0 to 16.
    pub(crate) fn of(x: Iv) -> Amount
        requires { AreBetween (pos 0) (pos (2 ^ 36)) x }
        ensures value { interval_of result ≡ x }
        ensures small { result.hi ≤ 2 ^ 36 }
    {
        Amount {
            lo: x.lo() as u64,
            hi: x.hi() as u64,
        }
    }

    /// The sum: the ends are added.
    #[inline(always)]
    pub(crate) fn plus(self, other: Amount) -> Amount
        requires first { self.hi ≤ 2 ^ 60 }
        requires second { other.hi ≤ 2 ^ 60 }
        ensures value { interval_of result ≡ add_of (interval_of self) (interval_of other) }
        ensures high { result.hi ≡ self.hi + other.hi }
    {
        Amount {
            lo: self.lo + other.lo,
            hi: self.hi + other.hi,
        }
    }

    /// The product of a factor of at most 16 with this: the ends are multiplied and rounded outward.
    #[inline(always)]
    pub(crate) fn by(self, factor: Amount) -> Amount
        requires amount { self.hi ≤ 2 ^ 50 }
        requires factor { factor.hi ≤ 2 ^ 36 }
        ensures value { interval_of result ≡ mul_of (interval_of factor) (interval_of self) }
        ensures high { result.hi ≤ 16 * self.hi }
    {
        Amount {
            lo: units_down(factor.lo, self.lo),
            hi: units_up(factor.hi, self.hi),
        }
    }

    /// This less 1.5.
    #[inline(always)]
    pub(crate) fn less_one_and_a_half(self) -> Iv
        requires { self.hi ≤ 2 ^ 60 }
        ensures { result ≡ enc (Add minus_one_and_a_half (Known (interval_of self))) }
    {
        let base = 6_442_450_944;
        Iv::of_ends(
            Some(i128::from(self.lo) - base),
            Some(i128::from(self.hi) - base),
        )
    }
}

/// A product of ends in units of 2^-64, in units of 2^-32, rounded down.
#[inline(always)]
fn units_down(x: u64, y: u64) -> u64
    requires first { x ≤ 2 ^ 36 }
    requires second { y ≤ 2 ^ 50 }
    ensures { result ≡ x * y / 2 ^ 32 }
{
    ((u128::from(x) * u128::from(y)) >> 32) as u64
}

/// The same, rounded up.
#[inline(always)]
fn units_up(x: u64, y: u64) -> u64
    requires first { x ≤ 2 ^ 36 }
    requires second { y ≤ 2 ^ 50 }
    ensures { result ≡ div_ceil (x * y) (2 ^ 32) }
{
    let product = u128::from(x) * u128::from(y);
    ((product + ((1 << 32) - 1)) >> 32) as u64
}
