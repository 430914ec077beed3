//! Laws of the attenuation by the ground. Each function does nothing: its contract is the law.

ghost use Rattle.term_ground.specs.Laws.{SameForOneLength, SameForMetZones, GroundIsSound};
ghost use Rattle.term_ground.specs.Laws.{SimpleGroundSame, SolidAngleSame};
ghost use Rattle.term_ground.specs.Laws.{SimpleGroundIsSound, SolidAngleIsSound};

/// Any formula of the plan length with the same interval gives the same attenuations.
pub fn same_for_one_length()
    ensures { SameForOneLength }
{}

/// A zone that doesn't meet the path changes nothing.
pub fn same_for_met_zones()
    ensures { SameForMetZones }
{}

/// The interval of each attenuation encloses its formula (`energy_sum::laws`), since the formula is sound.
pub fn ground_is_sound()
    ensures { GroundIsSound }
{}

/// Any formula of the path's length, or of the square of its plan length, with the same interval gives the same values by
/// the alternative method.
pub fn simple_method_same()
    ensures ground { SimpleGroundSame }
    ensures index { SolidAngleSame }
{}

/// The values of the alternative method enclose their formulas, since these are sound.
pub fn simple_method_is_sound()
    ensures ground { SimpleGroundIsSound }
    ensures index { SolidAngleIsSound }
{}
