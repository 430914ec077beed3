//! A caller's seat at a lock.
ghost use Rattle.turn_lock.specs.Standing.{SeatIsSound};

use crate::machine::Machine;
use crate::view::View;
use std::marker::Model;

/// A seat at the table that lies under a lock.
pub type Place<M, C, R> = atomic_table::Seat<Option<M>, View<C, R>>;

/// A caller's place at one [`Turn`](crate::Turn). It has no bytes.
///
/// Contracts see it as a record of six: the `table` that it belongs to (a seat is of a lock where they are the same);
/// its `number`; the history that it has `seen`, a list of entries; `mine`, its own entries; `parts`, of which all
/// seats of a lock together have 2^64; and `joined`, the numbers of the seats that were joined into it, and of those
/// joined into them, each beside the entries that its seat had made.
#[derive(Drop)]
pub struct Seat<M: Machine> {
    pub(crate) place: Place<M, M::Call, M::Reply>,
}

impl<M: Machine> Model for Seat<M> {
    ghost use Rattle.std.specs.Prelude.{◌≡◌, []};
    ghost use Rattle.turn_lock.specs.Standing.{Standing, standing};
    ghost use Rattle.turn_lock.specs.inner.Places.{IsSeated};

    ghost Value = { Standing M.Call M.Reply };

    ghost view = { λ s. standing s.place.table_id s.place.me.0 };

    ghost invariant = { λ s. IsSeated M.start M.steps M.may s.place.me };
}

impl<M: Machine> Seat<M> {
    /// Nothing is done. Every seat is sound, wherever it comes from, so that what holds one need not say so.
    pub fn stays_sound(&self)
        ensures { SeatIsSound M.start M.steps M.may self.now }
    {
        let _ = &self.place;
    }
}
