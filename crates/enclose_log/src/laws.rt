//! What the logarithm's value encloses.

ghost use Rattle.std.specs.Prelude.{ℕ, ◌<◌, ◌≤◌, ◌*◌, ◌^◌, ◌≤ℤ◌, ◌+ℤ◌, ◌-ℤ◌, IsSomeAnd, pos};
ghost use Rattle.fix_interval.specs.Interval.{Interval, IsInterval};
ghost use Rattle.fix_interval.specs.Lawful.{IsLawful};
ghost use Rattle.fix_interval.specs.Lg.{lg_low, lg_high, lg_of, IsAtMostLg, IsAtLeastLg};
ghost use Rattle.fix_interval.specs.Rules.{HoldsLogarithm};
ghost use Rattle.fix_interval.specs.Ranges.{IsRanged, logarithm_range};
ghost use Rattle.fix_interval.specs.Tree.{Lg, Root, Const, enc};
ghost use Rattle.enclose_log.specs.Narrow.{IsNarrow};

/// The value of `lg` encloses the logarithm: for every interval that lies above 0 the powers of ten at its
/// ends, raised to 2^32, stand on the right sides of those of the argument. So in a formula the node of the
/// logarithm is enclosed where its part is.
pub fn logarithm_is_enclosed()
    ensures ends { (i : Interval) → IsInterval i → IsSomeAnd i.lo (λ x. pos 1 ≤ℤ x)
        → HoldsLogarithm i (lg_of i) }
    ensures lawful { IsLawful Lg lg_of }
{}

/// The logarithm of what lies in a range lies in the range that the algebra of ranges gives for it: within the decades
/// of its bounds.
pub fn logarithm_keeps_its_range()
    ensures { IsRanged lg_of logarithm_range }
{}

/// The logarithm of a greater end isn't less, neither rounded down nor rounded up. So the greatest of some intervals, end
/// by end, has the greatest of their logarithms.
pub fn logarithm_keeps_order()
    ensures low { (m n : ℕ) → 0 < m → m ≤ n → n < 2 ^ 126
        → lg_low m ≤ℤ lg_low n }
    ensures high { (m n : ℕ) → 0 < m → m ≤ n → n < 2 ^ 126
        → lg_high m ≤ℤ lg_high n }
{}

/// The ends are near the logarithm: two units of 2^-32 more than the low end are at least it, and two less than the high end
/// at most.
pub fn ends_are_near()
    ensures low { (n : ℕ) → 0 < n → n < 2 ^ 126 → IsAtLeastLg (lg_low n +ℤ pos 2) n }
    ensures high { (n : ℕ) → 0 < n → n < 2 ^ 126 → IsAtMostLg (lg_high n -ℤ pos 2) n }
{}

/// The enclosure of the logarithm of a length from a millimetre to a kilometre, whose square in m² is the fraction n / q, is
/// narrow: its high end is less than a thousandth above its low end.
pub fn length_has_a_narrow_logarithm()
    ensures { (n q : ℕ) → 0 < q → q ≤ 1000000 * n → n ≤ 1000000 * q → n < 2 ^ 94
        → IsNarrow (enc (Lg (Root (Const (pos n) q)))) }
{}
