//! The law of edits that touch nothing. Each function does nothing: its contract is the law.
ghost use Rattle.touch_test.specs.Envelopes.{FarEditsTouchNoPath};
ghost use Rattle.touch_test.specs.Laws.{UntouchedPathsStay, UntouchedPathsStayInTurn};
ghost use Rattle.touch_test.specs.Laws.{UntouchedReceiversStay, UntouchedReceiversStayInTurn};

use scene_book::laws::accepted_edits_change_pieces;
use scene_geom::laws::uncrossed_is_unblocked;

/// Where an edit doesn't touch the path from a source within reach to a receiver, the source stays within reach, and the
/// path keeps its trace and its energies. This holds of every kind of edit, and of edits in a row, each tested on the
/// scene before it.
pub fn untouched_paths_stay()
    ensures each { UntouchedPathsStay }
    ensures in_turn { UntouchedPathsStayInTurn }
{
    uncrossed_is_unblocked();
    accepted_edits_change_pieces();
}

/// Where an edit doesn't touch a receiver, the same sources are within its reach, with the same traces, and the same
/// levels are shown of it.
pub fn untouched_receivers_stay()
    ensures each { UntouchedReceiversStay }
    ensures in_turn { UntouchedReceiversStayInTurn }
{
    uncrossed_is_unblocked();
    accepted_edits_change_pieces();
}

/// An edit that may not touch a path in a box touches none of the paths that the box holds.
pub fn far_edits_touch_no_path()
    ensures { FarEditsTouchNoPath }
{}
