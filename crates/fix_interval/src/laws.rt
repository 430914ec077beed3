//! The laws of the table of enclosures, as functions that do nothing but have a contract.

ghost use Rattle.std.specs.Prelude.{◌≡◌, ℕ, ℤ, ◌<◌, true};
ghost use Rattle.fix_interval.specs.Interval.{Interval, IsInterval};
ghost use Rattle.fix_interval.specs.Values.{ratio_of, add_of, neg_of, mul_of, div_of, max_of, min_of, root_of, hull_of, less_of, pick_of};
ghost use Rattle.fix_interval.specs.Rules.{Holds};
ghost use Rattle.fix_interval.specs.Tree.{Tree, Known, Const, Add, Neg, Mul, Div, Max, Min, Root, Lg, Ten, ExpNeg, Pick, IsSound, enc};
ghost use Rattle.fix_interval.specs.Lg.{lg_of};
ghost use Rattle.fix_interval.specs.Ten.{ten_of};
ghost use Rattle.fix_interval.specs.ExpNeg.{exp_neg_of};
ghost use Rattle.fix_interval.specs.Lawful.{IsLawful};
ghost use Rattle.fix_interval.specs.Encloses.{Encloses};
ghost use Rattle.fix_interval.specs.Bounds.{AreBetween};
ghost use Rattle.fix_interval.specs.Ranges.{LiesIn, HasRanges, range_of, is_inside};
ghost use Rattle.fix_interval.specs.declared.truth.Truth.{Truth};

/// The value that the table gives for a node encloses it where the intervals of its parts enclose the parts.
pub fn table_encloses()
    ensures known { (i : Interval) → Encloses (Known i) i }
    ensures constant { (p : ℤ) (q : ℕ) → 0 < q → Encloses (Const p q) (ratio_of p q) }
    ensures sum { (a b : Tree) (i j : Interval) → Encloses a i → Encloses b j
        → Encloses (Add a b) (add_of i j) }
    ensures negation { (a : Tree) (i : Interval) → Encloses a i → Encloses (Neg a) (neg_of i) }
    ensures product { (a b : Tree) (i j : Interval) → Encloses a i → Encloses b j
        → Encloses (Mul a b) (mul_of i j) }
    ensures quotient { (a b : Tree) (i j : Interval) → IsInterval j → Encloses a i → Encloses b j
        → Encloses (Div a b) (div_of i j) }
    ensures greater { (a b : Tree) (i j : Interval) → Encloses a i → Encloses b j
        → Encloses (Max a b) (max_of i j) }
    ensures lesser { (a b : Tree) (i j : Interval) → Encloses a i → Encloses b j
        → Encloses (Min a b) (min_of i j) }
    ensures square_root { (a : Tree) (i : Interval) → Encloses a i → Encloses (Root a) (root_of i) }
    ensures choice { (x y a b : Tree) (i j k l : Interval) → Encloses x i → Encloses y j
        → Encloses a k → Encloses b l
        → Encloses (Pick x y a b) (pick_of (less_of j i) k l) }
{}

/// What an interval encloses is enclosed by every interval that holds it, so that a hull encloses both of
/// its parts.
pub fn holding_encloses()
    ensures wider { (t : Tree) (k w : Interval) → Encloses t k → Holds k w → Encloses t w }
    ensures hull { (a b : Tree) (i j : Interval) → Encloses a i → Encloses b j
        → Encloses a (hull_of i j) × Encloses b (hull_of i j) }
{}

/// The value that the table gives for a node is an interval where those of its parts are.
pub fn table_gives_intervals()
    ensures constant { (p : ℤ) (q : ℕ) → 0 < q → IsInterval (ratio_of p q) }
    ensures sum { (i j : Interval) → IsInterval i → IsInterval j → IsInterval (add_of i j) }
    ensures negation { (i : Interval) → IsInterval i → IsInterval (neg_of i) }
    ensures product { (i j : Interval) → IsInterval i → IsInterval j → IsInterval (mul_of i j) }
    ensures quotient { (i j : Interval) → IsInterval i → IsInterval j → IsInterval (div_of i j) }
    ensures greater { (i j : Interval) → IsInterval i → IsInterval j → IsInterval (max_of i j) }
    ensures lesser { (i j : Interval) → IsInterval i → IsInterval j → IsInterval (min_of i j) }
    ensures square_root { (i : Interval) → IsInterval i → IsInterval (root_of i) }
    ensures hull { (i j : Interval) → IsInterval i → IsInterval j → IsInterval (hull_of i j) }
    ensures choice { (t : Truth) (i j : Interval) → IsInterval i → IsInterval j → IsInterval (pick_of t i j) }
{}

/// Where the values of the logarithm and of the two powers are lawful, the interval of every sound formula
/// is one, and encloses the formula.
pub fn formulas_are_enclosed()
    ensures intervals { IsLawful Lg lg_of → IsLawful Ten ten_of → IsLawful ExpNeg exp_neg_of
        → (t : Tree) → IsSound t → IsInterval (enc t) }
    ensures enclosed { IsLawful Lg lg_of → IsLawful Ten ten_of → IsLawful ExpNeg exp_neg_of
        → (t : Tree) → IsSound t → Encloses t (enc t) }
{}

/// Where the parts of a formula lie in ranges, the formula lies in the range that these give for it; and so between two
/// numbers, where that range does.
pub fn formulas_keep_their_ranges()
    ensures range { (t r : Tree) → HasRanges t r → LiesIn (range_of r) (enc t) }
    ensures between { (low high : ℤ) (t r : Tree) → HasRanges t r
        → is_inside low high (range_of r).lo (range_of r).hi ≡ true → AreBetween low high (enc t) }
{}
