//! The law of formulas, here where the logarithm and the powers first meet.

ghost use Rattle.fix_interval.specs.Encloses.{Encloses};
ghost use Rattle.fix_interval.specs.Interval.{IsInterval};
ghost use Rattle.fix_interval.specs.Tree.{Tree, IsSound, enc};

/// What is calculated for a formula, node by node, is an interval and encloses the formula: for every formula whose
/// known intervals are intervals and whose constants have divisors above 0.
pub fn every_formula_is_enclosed()
    ensures interval { (formula : Tree) → IsSound formula → IsInterval (enc formula) }
    ensures enclosed { (formula : Tree) → IsSound formula → Encloses formula (enc formula) }
{}
