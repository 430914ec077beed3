//! Laws of the attenuation by foliage. Each function does nothing: its contract is the law.

ghost use Rattle.term_foliage.specs.Laws.{SameForOneLength, SameForMetFoliage, OnlyMetCounts, FoliageIsSound};

/// Any formula of the length of the path with the same interval gives the same attenuations.
pub fn same_for_one_length()
    ensures { SameForOneLength }
{}

/// Foliage that doesn't meet the path changes nothing, and no name does.
pub fn same_for_met_foliage()
    ensures { SameForMetFoliage }
{}

/// The attenuation is that of the foliage that meets the path, named anyhow.
pub fn only_met_counts()
    ensures { OnlyMetCounts }
{}

/// The interval of each attenuation encloses its formula (`energy_sum::laws`), since the formula is sound.
pub fn foliage_is_sound()
    ensures { FoliageIsSound }
{}
