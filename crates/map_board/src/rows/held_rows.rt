//! The rows of a board, with a place before which none of them is needy, and one from which all are empty.
ghost use Rattle.std.specs.Prelude.{◌≡◌, ◌+◌, ◌<◌, ◌≤◌, ℕ, All, false, None, Some, IsSome, IfSome, IfNone, IsSomeAnd, OnOk, length, slice_get, slice_set, vec_len, vec_capacity};
ghost use Rattle.std.specs.List.{list_any};
ghost use Rattle.map_board.specs.inner.Back.{held_with};
ghost use Rattle.scene_book.specs.Lists.{AreApart};
ghost use Rattle.map_board.specs.Boards.{rows_of};
ghost use Rattle.map_board.specs.inner.Boards.{is_held_needy, row_out, EachHolds, IsNeedyAt, IsOutSince};
ghost use Rattle.map_board.specs.inner.Changes.{scene_before, scene_after, journal_after, removed_place, IsChange};
ghost use Rattle.map_board.specs.Machine.{rows_after};

use crate::edits::renewing::{Change, carry_over, least_out};
use crate::edits::testing::PathTest;
use crate::rows::{Back, Cache, HeldRow, next_needy, put_back, take_row};
use scene_book::Scene;
use scene_parts::NoMemory;
use std::alloc::Global;
use std::marker::Model;

/// The rows of a board. A search for a needy row goes on from where the last one ended: none before that place is
/// needy. From another place on all are empty, since no job was taken for any of them. Contracts see it as the vector of
/// rows.
#[derive(Drop)]
pub(crate) struct HeldRows {
    rows: Vec<HeldRow>,
    passed: usize,
    empty_from: usize,
}

impl Model for HeldRows {
    ghost use Rattle.std.specs.Prelude.{Vec};
    ghost use Rattle.std.specs.declared.alloc.Global.{Global};
    ghost use Rattle.map_board.specs.declared.rows.HeldRow.{HeldRow};
    ghost use Rattle.map_board.specs.inner.Boards.{NoneNeedyBefore, EmptyFrom};

    ghost Value = { Vec HeldRow Global };

    ghost view = { λ held. held.rows };

    ghost invariant = { λ held. NoneNeedyBefore held.passed held.rows.items
        × EmptyFrom held.empty_from held.rows.items };
}

impl HeldRows {
    /// These rows, any of which may be needy.
    pub(crate) fn of(rows: Vec<HeldRow>) -> HeldRows
        ensures { result ≡ rows }
    {
        let empty_from = rows.len();
        HeldRows {
            rows,
            passed: 0,
            empty_from,
        }
    }

    /// The rows in their order.
    pub(crate) fn as_slice(&self) -> &[HeldRow]
        ensures { result.now ≡ self.now.items }
    {
        self.rows.as_slice()
    }

    /// The place of the first needy row. The next search goes on from there.
    pub(crate) fn first_needy(&mut self) -> Option<usize>
        ensures same { self.new ≡ self.old }
        ensures none { IfNone result (list_any is_held_needy self.old.items ≡ false) }
        ensures some { IfSome result (λ place. IsNeedyAt self.old.items place) }
    {
        match next_needy(self.rows.as_slice(), self.passed) {
            Some(place) => {
                self.passed = place;
                Some(place)
            }
            None => {
                self.passed = self.rows.len();
                None
            }
        }
    }

    /// Marks the row at a place as out with a job of a version, and hands out its bundles.
    pub(crate) fn take_row(&mut self, place: usize, version: u64) -> Cache
        requires { IsSomeAnd (slice_get self.old.items place) (λ held. IsSome held.cache) }
        ensures cache { (held : _) → slice_get self.old.items place ≡ Some held → held.cache ≡ Some result }
        ensures rows { (held : _) → slice_get self.old.items place ≡ Some held
            → self.new.items ≡ slice_set self.old.items place (row_out version held) }
    {
        self.empty_from = self.empty_from.max(place + 1);
        take_row(&mut self.rows[place], version)
    }

    /// Puts what comes back into the row at a place, which may be needy from now on.
    pub(crate) fn put_back(&mut self, place: usize, back: Back)
        requires { place < length self.old.items }
        ensures { (held : _) → slice_get self.old.items place ≡ Some held
            → self.new.items ≡ slice_set self.old.items place (held_with back held) }
    {
        self.passed = self.passed.min(place);
        self.empty_from = (place + 1).max(self.empty_from);
        put_back(&mut self.rows[place], back);
    }

    /// Makes room for some rows more.
    pub(crate) fn reserve(&mut self, more: usize) -> Result<(), NoMemory>
        ensures same { self.new.items ≡ self.old.items }
        ensures room { OnOk result (vec_len self.new + more ≤ vec_capacity self.new) }
    {
        self.rows.reserve(more)?;
        Ok(())
    }

    /// Carries the rows over to the scene after an edit, as `carry_over` says. Any of them may be needy from now on.
    pub(crate) fn carry_over<T: PathTest>(
        &mut self,
        alloc: Global,
        gone: Option<usize>,
        scene: &Scene,
        change: &Change,
        test: &T,
    )
        requires ready { T.ready test.now }
        requires change { IsChange change.now }
        requires news { scene.now.receivers ≡ (scene_after change.now).receivers }
        requires apart { AreApart (λ r. r.name) (scene_before change.now).receivers }
        requires each { EachHolds change.now.past.value
            (scene_before change.now).receivers self.old.items }
        requires gone { gone ≡ removed_place change.now }
        requires room { length scene.now.receivers ≤ vec_capacity self.old }
        ensures each { EachHolds (journal_after change.now) scene.now.receivers self.new.items }
        ensures rows { rows_of scene.now.receivers self.new.items
            ≡ rows_after change.now.logged.edit change.now.past.value
            (rows_of (scene_before change.now).receivers self.old.items) }
    {
        carry_over(
            alloc,
            &mut self.rows,
            self.empty_from,
            gone,
            scene,
            change,
            test,
        );
        self.passed = 0;
    }

    /// The least version of a job that is out, or this one, which is the newest. None is out for an empty row.
    pub(crate) fn least_out(&self, newest: u64) -> u64
        ensures reaches { All (IsOutSince result) self.now.items }
        ensures newest { result ≤ newest }
        ensures start { (start : ℕ) → start ≤ newest → All (IsOutSince start) self.now.items
            → start ≤ result }
    {
        let count = self.rows.len().min(self.empty_from);
        least_out(&self.rows[..count], newest)
    }
}
