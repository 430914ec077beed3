//! Laws of bundles and levels. Each function does nothing: its contract is the law.

ghost use Rattle.scene_book.specs.Book.{Book};
ghost use Rattle.scene_geom.specs.declared.band.Band.{Band};
ghost use Rattle.scene_parts.specs.Parts.{Source, Receiver};
ghost use Rattle.path_calc.specs.Laws.{BandsAreEnclosed, LongIsEnclosed, LevelsAreEnclosed};
ghost use Rattle.path_calc.specs.Laws.{SameBetween, EdgesAreCuts, ReflectedEdgesAreCuts};

use energy_sum::every_formula_is_enclosed;
use term_barrier::laws::screening_is_sound;

/// The energies of a bundle enclose their formulas, node by node.
pub fn energies_are_enclosed()
    ensures bands { BandsAreEnclosed }
    ensures long { LongIsEnclosed }
{
    every_formula_is_enclosed();
    screening_is_sound();
}

/// Each level that the map shows of a receiver is the interval of one whole formula, of all sounds of all
/// sources within reach, those that walls reflect among them (ISO 9613-2, equations 3 to 6 and 20), and encloses it, node
/// by node.
pub fn levels_are_enclosed()
    ensures { (book : Book) (r : Receiver) → LevelsAreEnclosed book r }
{
    every_formula_is_enclosed();
    screening_is_sound();
}

/// A bundle is the same in two scenes that agree in what holds of the whole scene and in what source and
/// receiver read of its parts.
pub fn same_between()
    ensures { SameBetween }
{}

/// The edges that source and receiver read in a band are those of the cuts of their line of sight there, in the
/// same order, and tell whether an obstacle screens.
pub fn edges_are_cuts()
    ensures { (book : Book) (s : Source) (r : Receiver) (band : Band) → EdgesAreCuts book s r band }
{}

/// The edges that are read on the legs of a reflected path in a band are those of its leg cuts there, in the same order.
pub fn reflected_edges_are_cuts()
    ensures { ReflectedEdgesAreCuts }
{}
