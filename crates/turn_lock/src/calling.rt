//! Calls of the machine that is taken in turns.
ghost use Rattle.std.specs.Prelude.{◌≡◌};
ghost use Rattle.turn_lock.specs.Answering.{AnswersAs};
ghost use Rattle.turn_lock.specs.Standing.{SeatIsSound, HasCalled};

use crate::machine::Machine;
use crate::seat::Seat;
use crate::turn::Turn;
use std::alloc::Global;
use std::marker::Brand;
use std::snapshot::Snapshot;
use std::sync::Wait;

impl<M: Machine> Turn<M> {
    /// One call, in the seat's turn, for which it may wait. The history grows by this one entry: the seat has then
    /// seen the history up to it, and it is the last of the seat's own.
    pub fn turn<R: Wait>(
        &self,
        rt: &R,
        alloc: Global,
        seat: &mut Seat<M>,
        call: M::Call,
    ) -> M::Reply
        requires own { seat.old.table ≡ self.now }
        requires allowed { M.may seat.old.number seat.old.mine call }
        ensures called { HasCalled seat.old call result seat.new }
        ensures sound_before { SeatIsSound M.start M.steps M.may seat.old }
        ensures sound { SeatIsSound M.start M.steps M.may seat.new }
    {
        self.turn_by(
            rt,
            seat,
            call,
            |machine: &mut M, call: M::Call| machine.step(alloc, call),
        )
    }

    /// One call that the closure answers in place of the machine's step, as `turn` says. From every state in which
    /// the call can be answered it may be called, and what it answers and leaves is a step for this call.
    pub fn turn_by<R: Wait, F: FnOnce(&mut M, M::Call) -> M::Reply>(
        &self,
        rt: &R,
        seat: &mut Seat<M>,
        call: M::Call,
        f: F,
    ) -> M::Reply
        requires own { seat.old.table ≡ self.now }
        requires allowed { M.may seat.old.number seat.old.mine call }
        requires answers { AnswersAs F.FnOnce M.state M.can M.steps f call }
        ensures called { HasCalled seat.old call result seat.new }
        ensures sound_before { SeatIsSound M.start M.steps M.may seat.old }
        ensures sound { SeatIsSound M.start M.steps M.may seat.new }
    {
        let place = &mut seat.place;
        let said = Snapshot::of(&call);
        let (ticket, mut machine) = self.take_turn(rt, place);
        let reply = f(&mut machine, call);
        let replied = Snapshot::of(&reply);
        self.end_turn::<Brand>(place, ticket, machine, said, replied);
        reply
    }
}
