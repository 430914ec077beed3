//! What is taken in turns.
use std::alloc::Global;

/// A value that answers calls, one at a time.
///
/// A machine has a meaning, its state, and a start state; `steps` relates old state, call, reply and new state; `may`
/// says what a seat may ask, by its number and its own entries. The law `lawful` ties `may` to `can`: after every
/// history from the start in which each seat asked only what it may, a call that `may` allows can be answered.
pub trait Machine: Drop {
    ghost use Rattle.std.specs.Prelude.{ℕ, List};
    ghost use Rattle.turn_lock.specs.declared.entry.Entry.{Entry};
    ghost use Rattle.turn_lock.specs.History.{Lawful};

    /// What contracts see of the machine.
    type State;

    /// What is asked of it.
    type Call;

    /// What it answers.
    type Reply;

    // What it means: its state.
    ghost state: { Self → Self.State };

    // Where every history begins.
    ghost start: { Self.State };

    // Of the state before, the call, the reply and the state after.
    ghost steps: { Self.State → Self.Call → Self.Reply → Self.State → Type 0 };

    // The condition of `step`.
    ghost can: { Self.State → Self.Call → Type 0 };

    // What a seat may ask: of its number, its own entries so far, and the call.
    ghost may: { ℕ → List (Entry Self.Call Self.Reply) → Self.Call → Type 0 };

    /// Answers one call. The answer and the state that is left are a step of the machine.
    fn step(&mut self, alloc: Global, call: Self::Call) -> Self::Reply
        requires { can (state self.old) call }
        ensures { steps (state self.old) call result (state self.new) };

    // After every run a call that its seat may ask is one that can be answered.
    ghost lawful: { Lawful start steps can may };
}
