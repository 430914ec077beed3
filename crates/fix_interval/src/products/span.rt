//! An interval with two bounded ends, as products and quotients take it.

ghost use Rattle.std.specs.Prelude.{◌≡◌, ◌<◌, ◌^◌, ◌≤ℤ◌, ◌⊎◌, unsigned_abs, IfSome, IfNone, neg_ℤ};

use crate::iv::Iv;

/// Two bounded ends in units of 2^-32, each strictly between -2^126 and 2^126.
#[derive(Clone, Copy, Drop)]
pub(crate) struct Span {
    pub(crate) lo: i128,
    pub(crate) hi: i128,
    ghost low_end: { unsigned_abs lo < 2 ^ 126 },
    ghost high_end: { unsigned_abs hi < 2 ^ 126 },
    ghost ordered: { lo ≤ℤ hi },
}

/// The ends of an interval that has two bounded ones.
pub(crate) fn bounded(a: Iv) -> Option<Span>
    ensures both { IfSome result (λ s. (a.lo ≡ Some s.lo) × (a.hi ≡ Some s.hi)) }
    ensures unbounded { IfNone result ((a.lo ≡ None) ⊎ (a.hi ≡ None)) }
{
    match (a.low(), a.high()) {
        (Some(lo), Some(hi)) => Some(Span { lo, hi }),
        _ => None,
    }
}

impl Span {
    /// The ends negated and exchanged.
    pub(crate) fn negated(self) -> Span
        ensures low { result.lo ≡ neg_ℤ self.hi }
        ensures high { result.hi ≡ neg_ℤ self.lo }
    {
        Span {
            lo: -self.hi,
            hi: -self.lo,
        }
    }
}
