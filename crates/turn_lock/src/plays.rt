//! The rule that holds between steps, and the kinds of step.
use crate::machine::Machine;
use crate::view::View;
use atomic_table::{Join, Play, Split, TableRule};
use std::marker::{Brand, PhantomData};

/// The rule of the table: words, slot and views fit one legal history.
pub struct Order<M> {
    machine: PhantomData<M>,
}

impl<M: Machine> TableRule<Option<M>, View<M::Call, M::Reply>, ()> for Order<M> {
    ghost use Rattle.turn_lock.specs.inner.Rule.{IsKept, first_view};

    ghost holds = { λ _. IsKept M.state M.start M.steps M.may };

    ghost first = { λ _. first_view };
}

/// Draws a ticket.
pub struct Draw;

impl<M, C, R> Play<Option<M>, View<C, R>> for Draw {
    ghost use Rattle.turn_lock.specs.inner.Steps.{Draws};

    ghost then = { Draws };
}

/// Loads the served ticket, and takes the slot where it is the seat's own.
pub struct Serve<M> {
    machine: PhantomData<M>,
}

impl<M: Machine> Play<Option<M>, View<M::Call, M::Reply>> for Serve<M> {
    ghost use Rattle.turn_lock.specs.inner.Steps.{Serves};

    ghost then = { Serves M.state M.start M.steps M.may };
}

/// The entries that a turn adds to the history. Each call of `end_turn` picks them.
pub trait Added<C, R> {
    ghost use Rattle.std.specs.Prelude.{List};
    ghost use Rattle.turn_lock.specs.declared.entry.Entry.{Entry};

    ghost added: { List (Entry C R) };
}

impl<C, R> Added<C, R> for Brand {
    ghost use Rattle.std.specs.Prelude.{[]};

    ghost added = { [] };
}

/// Ends a turn: its entries join the history, the slot is given back, and the next ticket is served.
pub struct PassOn<M, K> {
    machine: PhantomData<M>,
    added: PhantomData<K>,
}

impl<M: Machine, K: Added<M::Call, M::Reply>> Play<Option<M>, View<M::Call, M::Reply>>
    for PassOn<M, K> {
    ghost use Rattle.turn_lock.specs.inner.Steps.{PassesOn};

    ghost then = { PassesOn M.state M.start M.steps M.may K.added };
}

/// Cuts one part off a view.
pub struct OnePart;

impl<C, R> Split<View<C, R>> for OnePart {
    ghost use Rattle.turn_lock.specs.inner.Steps.{with_part_less, unnamed};

    ghost left = { with_part_less };

    ghost right = { unnamed };
}

/// Draws a number.
pub struct Number<M> {
    machine: PhantomData<M>,
}

impl<M: Machine> Play<Option<M>, View<M::Call, M::Reply>> for Number<M> {
    ghost use Rattle.turn_lock.specs.inner.Steps.{Numbers};

    ghost then = { Numbers M.state M.start M.steps M.may };
}

/// Puts two views together.
pub struct Merge;

impl<C, R> Join<View<C, R>> for Merge {
    ghost use Rattle.turn_lock.specs.inner.Steps.{merged, spent};

    ghost both = { merged };

    ghost spent = { spent };
}

/// Changes nothing.
pub struct Look<M> {
    machine: PhantomData<M>,
}

impl<M: Machine> Play<Option<M>, View<M::Call, M::Reply>> for Look<M> {
    ghost use Rattle.turn_lock.specs.inner.Steps.{Looks};

    ghost then = { Looks M.state M.start M.steps M.may };
}
