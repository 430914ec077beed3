//! The lock.
ghost use Rattle.std.specs.Prelude.{◌≡◌, ℕ, ◌+◌, ◌-◌, ◌≤◌, length, sum_by, IfOk};
ghost use Rattle.turn_lock.specs.History.{Begins, IsRun};
ghost use Rattle.turn_lock.specs.inner.Places.{IsSamePlace, IsUnnamed, HasDrawn};
ghost use Rattle.turn_lock.specs.Standing.{Standing, SeatIsSound, IsNew, all_parts, first_standing, newcomer, taken_in};

use crate::machine::Machine;
use crate::plays::{Look, Merge, Number, OnePart, Order};
use crate::seat::{Place, Seat};
use crate::view::View;
use atomic_table::Table;
use std::alloc::Global;
use std::hint;
use std::marker::Model;
use std::sync::Wait;

/// The word of the next ticket.
pub(crate) const TICKETS: usize = 0;

/// The word of the ticket that is served, which is the length of the history.
pub(crate) const SERVED: usize = 1;

/// The word of the next seat's number.
pub(crate) const NUMBERS: usize = 2;

/// Memory ran out.
#[derive(Clone, Copy, Debug, PartialEq, Eq)]
pub struct NoMemory;

/// Words, a slot for the machine, and the seats' views.
pub(crate) type Slotted<M, C, R> = Table<Option<M>, View<C, R>, (), Order<M>, Global>;

/// A machine that is taken in turns. Contracts see it as the identity of its table, which its seats share.
#[derive(Drop)]
pub struct Turn<M: Machine> {
    pub(crate) table: Slotted<M, M::Call, M::Reply>,
}

impl<M: Machine> Model for Turn<M> {
    ghost use Rattle.std.specs.Prelude.{◌≡◌};
    ghost use Rattle.atomic_table.specs.Seated.{TableId, table_id_coded};

    ghost Value = { TableId };

    ghost coded = { table_id_coded };

    ghost view = { λ t. t.table.shared.table_id };

    ghost invariant = { λ t. (t.table.shared.table_id.words ≡ 3) × (t.table.shared.table_id.slots ≡ 1) };
}

impl<M: Machine> Turn<M> {
    /// A lock round the machine, which is in its start state, with the one seat that has all parts and the number 0.
    /// Nothing is seen, done or joined yet. Want of memory drops the machine.
    pub fn start(alloc: Global, machine: M) -> Result<(Turn<M>, Seat<M>), NoMemory>
        requires { M.state machine ≡ M.start }
        ensures seat { IfOk result (λ r. r.1 ≡ first_standing r.0) }
        ensures sound { IfOk result (λ r. SeatIsSound M.start M.steps M.may r.1) }
    {
        let mut slots = Vec::new(alloc);
        if slots.push(Some(machine)).is_err() {
            return Err(NoMemory);
        }
        match Table::new(alloc, &[0, 0, 1], slots, &()) {
            Ok((table, place)) => Ok((Turn { table }, Seat { place })),
            Err(_) => Err(NoMemory),
        }
    }

    /// A new seat, that sees what the old one sees. It has one of the old seat's parts, a number above all that the
    /// old seat knows, and nothing done or joined. It may wait: where all numbers are used, for ever.
    pub fn split<R: Wait>(&self, rt: &R, seat: &mut Seat<M>) -> Seat<M>
        requires own { seat.old.table ≡ self.now }
        requires parts { 2 ≤ seat.old.parts }
        ensures new { result ≡ newcomer result.number seat.old }
        ensures number { IsNew result.number seat.old }
        ensures old { seat.new ≡ record seat.old { parts = seat.old.parts - 1 } }
        ensures sound_before { SeatIsSound M.start M.steps M.may seat.old }
        ensures sound { SeatIsSound M.start M.steps M.may seat.new }
        ensures sound_new { SeatIsSound M.start M.steps M.may result }
    {
        let place = &mut seat.place;
        let mut other = self.table.shared.split_seat::<OnePart>(place);
        self.draw_number(rt, &mut other);
        Seat { place: other }
    }

    // Draws the number of a new seat.
    fn draw_number<R: Wait>(&self, rt: &R, place: &mut Place<M, M::Call, M::Reply>)
        requires own { place.old.table_id ≡ self.now }
        requires unnamed { IsUnnamed place.old.me }
        ensures same { IsSamePlace place.old place.new }
        ensures named { HasDrawn M.start M.steps M.may place.old.me place.new.me }
    {
        let shared = &self.table.shared;
        for _ in rt.forever() {
            let next = shared.peek(NUMBERS);
            if next < u64::MAX
                && shared.compare_exchange::<Number<M>>(place, NUMBERS, next, next + 1) == next
            {
                return;
            }
            hint::spin_loop();
        }
        unreachable!()
    }

    /// Takes the other seat in: the seat then sees the longer of the two lists, has the parts of both, and knows the
    /// other's entries beside the other's number, with all that was joined into it.
    pub fn join(&self, seat: &mut Seat<M>, other: Seat<M>)
        requires own { seat.old.table ≡ self.now }
        requires own_other { other.table ≡ self.now }
        ensures both { seat.new ≡ taken_in seat.old other }
        ensures seen { Begins seat.old.seen seat.new.seen }
        ensures seen_other { Begins other.seen seat.new.seen }
        ensures sound_before { SeatIsSound M.start M.steps M.may seat.old }
        ensures sound_other { SeatIsSound M.start M.steps M.may other }
        ensures sound { SeatIsSound M.start M.steps M.may seat.new }
    {
        let Seat { place: other } = other;
        let place = &mut seat.place;
        self.table.shared.join_seat::<Merge>(place, other);
        self.table.shared.load::<Look<M>>(place, TICKETS);
    }

    /// Hands the machine out, at the run of the whole history. The seat has all parts, so every other seat was joined
    /// into it, and the history has as many entries as they and it made.
    pub fn close(self, seat: Seat<M>) -> M
        requires own { seat.table ≡ self }
        requires whole { seat.parts ≡ all_parts }
        ensures run { IsRun M.start M.steps M.may seat.seen (M.state result) }
        ensures entries { length seat.seen ≡ length seat.mine + sum_by (λ j. length j.mine) seat.joined }
        ensures sound { SeatIsSound M.start M.steps M.may seat }
    {
        let Turn { table } = self;
        let Seat { place } = seat;
        let mut closed = table.close_with(place);
        let home = closed.take(0);
        closed.free();
        let Some(machine) = home else { unreachable!() };
        machine
    }
}
