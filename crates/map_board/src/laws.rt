//! Laws of the board. Each function does nothing: its contract is the law.
ghost use Rattle.map_board.specs.Facts.{EachStepKeepsRowsRight};
ghost use Rattle.map_board.specs.First.{FirstIsLeast, NoFirstPassesNone};
ghost use Rattle.map_board.specs.Laws.{BoardIsLawful};
ghost use Rattle.map_board.specs.Runs.{AnyCallsShowRight, FinishedByAnEntry, FinishedByTheEditor};
ghost use Rattle.map_board.specs.Showing.{RunsShowRight};

use touch_test::laws::untouched_receivers_stay;

/// After every history in which each seat asked only what it may, a call that a seat may ask meets the condition of its
/// step.
pub fn board_is_lawful()
    ensures { BoardIsLawful }
{}

/// Each step for a call that the state allows keeps all rows right: no row is newer than the journal, kept levels are those
/// that the whole scene of their version gives, and a job that is out isn't older than them.
pub fn each_step_keeps_rows_right()
    ensures { EachStepKeepsRowsRight }
{}

/// After every run the journal is the edits that were accepted, all of them the editor's. A look there is of the newest
/// version and shows each receiver right: as current with exactly the levels that the newest whole scene gives, as stale
/// with those of the scene of its own version and by the first later edit that touches it. On a settled board all are
/// current.
pub fn runs_show_right()
    ensures { RunsShowRight }
{
    untouched_receivers_stay();
}

/// After any calls whose conditions hold, whoever asks them, a look shows each receiver right, as after a run of seats. So it
/// is of a board under a lock of another kind.
pub fn any_calls_show_right()
    ensures { AnyCallsShowRight }
{
    untouched_receivers_stay();
}

/// The first edit after a version that passes a test is the one of the least number that does; where none is named, none does.
/// So it is of the edit that a stale row names, which touches the receiver, and of the one by which an answer is gone.
pub fn first_is_least()
    ensures some { FirstIsLeast }
    ensures none { NoFirstPassesNone }
{}

/// A board is finished just where an entry has finished it. A take is answered Finished only where the editor has.
pub fn finished_by_the_editor()
    ensures entry { FinishedByAnEntry }
    ensures editor { FinishedByTheEditor }
{}
