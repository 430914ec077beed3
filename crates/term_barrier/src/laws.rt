//! Laws of the attenuation by screening. Each function does nothing: its contract is the law.

ghost use Rattle.term_barrier.specs.Laws.{ScreeningIsSound, SideAttenuationIsSound, CrossingsFit, MarksFilter};

/// The interval of each attenuation encloses its formula (`energy_sum::laws`), since the formula is sound.
pub fn screening_is_sound()
    ensures over { ScreeningIsSound }
    ensures round { SideAttenuationIsSound }
{}

/// The edge of a side that crosses the line of sight fits.
pub fn crossings_fit()
    ensures { CrossingsFit }
{}

/// The edges that a test marks are those that pass it.
pub fn marks_filter()
    ensures { MarksFilter }
{}
