//! The queue of turns: a ticket is drawn and waited for, and the turn is passed on.
ghost use Rattle.std.specs.Prelude.{◌≡◌, ℕ, ◌+◌, ◌<◌, ◌^◌, [], ◌∷◌, Some, None, unwrap_or};
ghost use Rattle.turn_lock.specs.History.{entry};
ghost use Rattle.turn_lock.specs.inner.Steps.{HasTurn, Knows, with_entries};
ghost use Rattle.turn_lock.specs.inner.Places.{IsSamePlace, IsFree, IsWaiting, Waits, MayEnd};
ghost use Rattle.turn_lock.specs.declared.view.Phase.TheVariants.{Free, Waiting};

use crate::machine::Machine;
use crate::plays::{Added, Draw, PassOn, Serve};
use crate::seat::Place;
use crate::turn::{SERVED, TICKETS, Turn};
use std::hint;
use std::snapshot::Snapshot;
use std::sync::Wait;

// How often a seat looks again at once before it sleeps.
const TRIES: u32 = 1000;

impl<M: Machine> Turn<M> {
    // Waits for the seat's turn, and takes the machine out of the slot.
    pub(crate) fn take_turn<R: Wait>(
        &self,
        rt: &R,
        place: &mut Place<M, M::Call, M::Reply>,
    ) -> (u64, M)
        requires own { place.old.table_id ≡ self.now }
        requires free { IsFree place.old.me }
        ensures same { IsSamePlace place.old place.new }
        ensures room { result.0 + 1 < 2 ^ 64 }
        ensures turn { HasTurn M.state M.start M.steps M.may
            result.0 place.old.me result.1 None place.new.me }
    {
        let ticket = self.draw(rt, place);
        self.wait_for(rt, place, ticket);
        let Some(machine) = self.table.shared.exchange(place, 0, None) else {
            unreachable!()
        };
        (ticket, machine)
    }

    // Draws a ticket. Where all tickets are drawn it waits for ever.
    fn draw<R: Wait>(&self, rt: &R, place: &mut Place<M, M::Call, M::Reply>) -> u64
        requires own { place.old.table_id ≡ self.now }
        requires free { IsFree place.old.me }
        ensures same { IsSamePlace place.old place.new }
        ensures room { result + 1 < 2 ^ 64 }
        ensures waiting { IsWaiting result place.old.me place.new.me }
    {
        let shared = &self.table.shared;
        for _ in rt.forever() {
            let next = shared.peek(TICKETS);
            if next < u64::MAX
                && shared.compare_exchange::<Draw>(place, TICKETS, next, next + 1) == next
            {
                return next;
            }
            hint::spin_loop();
        }
        unreachable!()
    }

    // Waits until the ticket is served, and takes the slot. Who passes a turn on wakes those that sleep.
    fn wait_for<R: Wait>(&self, rt: &R, place: &mut Place<M, M::Call, M::Reply>, ticket: u64)
        requires own { place.old.table_id ≡ self.now }
        requires waiting { Waits ticket place.old.me }
        ensures same { IsSamePlace place.old place.new }
        ensures turn { (machine : M)
            × HasTurn M.state M.start M.steps M.may ticket place.old.me machine (Some machine) place.new.me }
    {
        let shared = &self.table.shared;
        let mut tries = 0;
        for _ in rt.forever() {
            let served = shared.load::<Serve<M>>(place, SERVED);
            if served == ticket {
                return;
            }
            if tries < TRIES {
                tries += 1;
                hint::spin_loop();
            } else {
                shared.park(rt, SERVED, (served & 0xffff_ffff) as u32);
            }
        }
        unreachable!()
    }

    // Puts the machine back, adds the entry to the history, and passes the turn on. Where a later ticket is drawn, its
    // seat may sleep.
    pub(crate) fn end_turn<K: Added<M::Call, M::Reply>>(
        &self,
        place: &mut Place<M, M::Call, M::Reply>,
        ticket: u64,
        machine: M,
        call: Snapshot<M::Call>,
        reply: Snapshot<M::Reply>,
    )
        requires own { place.old.table_id ≡ self.now }
        requires room { ticket + 1 < 2 ^ 64 }
        requires added { K.added
            ≡ entry (unwrap_or place.old.me.0.name 0) call.value reply.value ∷ [] }
        requires may { MayEnd M.state M.start M.steps M.may
            ticket call.value reply.value machine place.old.me }
        ensures same { IsSamePlace place.old place.new }
        ensures passed { place.new.me ≡ (with_entries K.added place.old.me.0, []) }
        ensures knows { Knows M.start M.steps M.may place.new.me.0 }
    {
        let shared = &self.table.shared;
        shared.exchange(place, 0, Some(machine));
        shared.store::<PassOn<M, K>>(place, SERVED, ticket + 1);
        if shared.peek(TICKETS) != ticket + 1 {
            shared.wake_all(SERVED);
        }
    }
}
