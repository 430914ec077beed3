//! An interval whose ends are short.

ghost use Rattle.std.specs.Prelude.{◌≡◌, ◌<◌, ◌^◌, pos, ◌+ℤ◌, ◌*ℤ◌, ◌≤ℤ◌, Some, unwrap_or, neg_ℤ, ◌⊎◌, unsigned_abs, IfSome, IfNone};
ghost use Rattle.fix_interval.specs.Interval.{open_low, open_high};
ghost use Rattle.fix_interval.specs.Round.{floor_of, ceil_of};

use crate::iv::Iv;

/// Short ends stay below this absolute value, 2^62.
const SHORT: i128 = 1 << 62;

/// Two bounded ends in units of 2^-32, each strictly between -2^62 and 2^62.
#[derive(Clone, Copy, Drop)]
pub(crate) struct Short {
    pub(crate) lo: i64,
    pub(crate) hi: i64,
    ghost low_end: { unsigned_abs lo < 2 ^ 62 },
    ghost high_end: { unsigned_abs hi < 2 ^ 62 },
    ghost ordered: { lo ≤ℤ hi },
}

/// The ends of an interval, where both are short. What stands for an unbounded end is not.
#[inline(always)]
pub(crate) fn short_ends(x: Iv) -> Option<Short>
    ensures ends { IfSome result (λ ends. x ≡ record { lo = Some ends.lo; hi = Some ends.hi }) }
    ensures long { IfNone result ((unwrap_or x.lo open_low ≤ℤ neg_ℤ (pos (2 ^ 62)))
        ⊎ (pos (2 ^ 62) ≤ℤ unwrap_or x.hi open_high)) }
{
    let (lo, hi) = (x.lo(), x.hi());
    if -SHORT < lo && hi < SHORT {
        Some(Short {
            lo: lo as i64,
            hi: hi as i64,
        })
    } else {
        None
    }
}

impl Short {
    /// The ends added.
    #[inline(always)]
    pub(crate) fn plus(self, other: Short) -> Iv
        ensures { result ≡ record { lo = Some (self.lo +ℤ other.lo); hi = Some (self.hi +ℤ other.hi) } }
    {
        Iv::of_ends(
            Some((self.lo + other.lo).into()),
            Some((self.hi + other.hi).into()),
        )
    }

    /// The ends negated and exchanged.
    #[inline(always)]
    pub(crate) fn negated(self) -> Short
        ensures low { result.lo ≡ neg_ℤ self.hi }
        ensures high { result.hi ≡ neg_ℤ self.lo }
    {
        Short {
            lo: -self.hi,
            hi: -self.lo,
        }
    }

    /// Both ends times a whole number.
    #[inline(always)]
    pub(crate) fn times(self, n: u32) -> Iv
        ensures { result ≡ record { lo = Some (self.lo *ℤ pos n); hi = Some (self.hi *ℤ pos n) } }
    {
        let n = i128::from(n);
        Iv::of_ends(Some(i128::from(self.lo) * n), Some(i128::from(self.hi) * n))
    }

    /// Both ends over a whole number, the low end rounded down and the high end rounded up.
    #[inline(always)]
    pub(crate) fn over(self, n: u32) -> Iv
        requires { 0 < n }
        ensures { result ≡ record { lo = Some (floor_of self.lo n); hi = Some (ceil_of self.hi n) } }
    {
        let n = i64::from(n);
        let low = self.lo.div_euclid(n);
        let high = -(-self.hi).div_euclid(n);
        Iv::of_ends(Some(low.into()), Some(high.into()))
    }
}
