//! What the values enclose.

ghost use Rattle.std.specs.Prelude.{◌≤ℤ◌, IsSomeAnd, pos};
ghost use Rattle.fix_interval.specs.ExpNeg.{exp_neg_of};
ghost use Rattle.fix_interval.specs.Interval.{Interval, IsInterval};
ghost use Rattle.fix_interval.specs.Lawful.{IsLawful};
ghost use Rattle.fix_interval.specs.Ranges.{IsRanged, decay_range, power_range};
ghost use Rattle.fix_interval.specs.Rules.{HoldsDecay, HoldsTenPower};
ghost use Rattle.fix_interval.specs.Ten.{ten_of};
ghost use Rattle.fix_interval.specs.Tree.{ExpNeg, Ten};

/// The value of `ten` encloses the power: its ends, raised to 2^32, stand on the right sides of the powers of
/// ten. So in a formula the node of the power is enclosed where its part is.
pub fn power_is_enclosed()
    ensures ends { (i : Interval) → HoldsTenPower i (ten_of i) }
    ensures lawful { IsLawful Ten ten_of }
{}

/// The value of `exp_neg` encloses the decay: for every interval that is not below 0 its ends, raised to 2^32,
/// stand on the right sides of the powers of two fractions next to e. So in a formula the node of the decay is
/// enclosed where its part is.
pub fn decay_is_enclosed()
    ensures ends { (i : Interval) → IsInterval i → IsSomeAnd i.lo (λ x. pos 0 ≤ℤ x)
        → HoldsDecay i (exp_neg_of i) }
    ensures lawful { IsLawful ExpNeg exp_neg_of }
{}

/// The power of ten of what lies in a range, and the decay of it, lie in the ranges that the algebra of ranges gives for
/// them: the power up to 16 times that of the exponent's whole part, the decay from 0 to 1.
pub fn powers_keep_their_ranges()
    ensures power { IsRanged ten_of power_range }
    ensures decay { IsRanged exp_neg_of decay_range }
{}
