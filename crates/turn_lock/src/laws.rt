//! Laws of histories, for every machine. Each function does nothing: its contract is the law.
ghost use Rattle.turn_lock.specs.Laws.{LastStep, RunThrough, KeptWhere, BetweenNone};

use crate::machine::Machine;

/// A fact of states, and the kind of entry that keeps it. No value of such a type is needed.
pub trait Fact<S, C, R> {
    ghost use Rattle.turn_lock.specs.declared.entry.Entry.{Entry};

    ghost of_kind: { Entry C R → Type 0 };

    ghost holds: { S → Type 0 };
}

/// A run with one more entry at its end: the run of what came before, that its seat might ask, and the machine's step.
pub fn last_step<M: Machine>()
    ensures { LastStep M.start M.steps M.may }
{}

/// A run cut at any place: the run to there, and what leads on from there.
pub fn run_through<M: Machine>()
    ensures { RunThrough M.start M.steps M.may }
{}

/// What each allowed entry of a kind keeps holds at the end of a run whose entries are of that kind.
pub fn kept_where<M: Machine, F: Fact<M::State, M::Call, M::Reply>>()
    ensures { KeptWhere M.start M.steps M.may F.of_kind F.holds }
{}

/// What stands between two views of a seat has no entry of its number.
pub fn between_none<M: Machine>()
    ensures { BetweenNone M.Call M.Reply }
{}
