//! The board.
ghost use Rattle.std.specs.Prelude.{◌≡◌, ◌<◌, true, false, not, length, map, slice_get, Some, IfOk};
ghost use Rattle.std.specs.List.{list_any};
ghost use Rattle.map_board.specs.Rows.{start, four_counts, shown_of};
ghost use Rattle.map_board.specs.Machine.{Takes, TakesJob};
ghost use Rattle.map_board.specs.Boards.{is_unsettled};
ghost use Rattle.map_board.specs.inner.Boards.{NeedyAt};

use crate::answers::Shown;
use crate::calls::Took;
use crate::edits::log::Log;
use crate::edits::namings::Naming;
use crate::jobs::Job;
use crate::past::Past;
use crate::rows::held_rows::HeldRows;
use crate::rows::standing::is_known_since;
use crate::rows::{Tally, count_out, is_any_unsettled};
use crate::scenes::PreparedScene;
use scene_book::Scene;
use scene_parts::NoMemory;
use std::alloc::Global;
use std::marker::Model;

/// A scene that is edited, and for each of its receivers what was calculated of it. Contracts see it as its journal of
/// edits, its rows in the order of receivers, whether it is finished, and four counts.
///
/// Since a version no edit changed the names of the sources, nor their order. So a row whose bundles were of each source in that
/// version's scene, or a later one, has them still in that order.
#[derive(Drop)]
pub struct Board {
    pub(crate) version: u64,
    pub(crate) hold: PreparedScene,
    pub(crate) named_since: u64,
    pub(crate) rows: HeldRows,
    pub(crate) finished: bool,
    pub(crate) counts: Tally,
    pub(crate) log: Log,
    pub(crate) namings: Vec<Naming>,
    pub(crate) past: Past,
}

impl Model for Board {
    ghost use Rattle.map_board.specs.Rows.{State};
    ghost use Rattle.map_board.specs.Boards.{rows_of, counts_of};
    ghost use Rattle.map_board.specs.inner.Boards.{IsBoard};
    ghost use Rattle.map_board.specs.inner.Standing.{NamesStand};

    ghost Value = { State };

    ghost view = { λ b. record {
      journal = b.past;
      rows = rows_of b.hold.scene.receivers b.rows.items;
      finished = b.finished;
      counts = counts_of b.counts;
    } };

    ghost invariant = { λ b. IsBoard b.version b.past b.hold.scene b.rows.items b.log b.namings.items
        × NamesStand b.past b.named_since };
}

impl Board {
    /// A board without edits, rows or jobs.
    pub fn new(alloc: Global) -> Result<Board, NoMemory>
        ensures { IfOk result (λ board. board ≡ start) }
    {
        Ok(Board {
            version: 0,
            hold: PreparedScene::of(alloc, Scene::empty(alloc)?)?,
            named_since: 0,
            rows: HeldRows::of(Vec::new(alloc)),
            finished: false,
            counts: Tally {
                taken: 0,
                kept: 0,
                gone: 0,
                back: 0,
            },
            log: Log::new(alloc),
            namings: Vec::new(alloc),
            past: Past::none(),
        })
    }

    /// How many edits were accepted.
    pub fn version(&self) -> u64
        ensures { result ≡ length self.now.journal }
    {
        self.version
    }

    /// How many receivers there are.
    pub fn rows(&self) -> u32
        ensures { result ≡ length self.now.rows }
    {
        self.rows.as_slice().len() as u32
    }

    /// How many jobs were taken, answers kept, answers gone, and jobs given back.
    pub fn counts(&self) -> [u64; 4]
        ensures { result ≡ four_counts self.now.counts }
    {
        [
            self.counts.taken,
            self.counts.kept,
            self.counts.gone,
            self.counts.back,
        ]
    }

    /// From now on every take answers that the board is finished.
    pub fn finish(&mut self)
        ensures { self.new ≡ record self.old { finished = true } }
    {
        self.finished = true;
    }

    /// What is shown of a row.
    pub fn shown(&self, row: u32) -> Shown
        requires { row < length self.now.rows }
        ensures { slice_get (map (shown_of self.now.journal) self.now.rows) row ≡ Some result }
    {
        self.rows.as_slice()[row as usize].shown()
    }

    /// Whether no row is needy or out.
    pub fn settled(&self) -> bool
        ensures { result ≡ not (list_any (is_unsettled self.now.journal) self.now.rows) }
    {
        !is_any_unsettled(self.rows.as_slice())
    }

    /// A job for any row that is neither current nor out, of the newest version; or that there is none, or that the board is
    /// finished. No memory is taken.
    pub fn take(&mut self) -> Took
        ensures { Takes self.old result self.new }
    {
        if self.finished {
            return Took::Finished;
        }
        match self.rows.first_needy() {
            Some(place) => Took::Job(self.take_at(place)),
            None => Took::Idle {
                taken: count_out(self.rows.as_slice()),
            },
        }
    }

    /// The job for a row.
    fn take_at(&mut self, place: usize) -> Job
        requires unfinished { self.old.finished ≡ false }
        requires needy { NeedyAt self.old place }
        ensures { TakesJob self.old result self.new }
    {
        let version = self.version;
        let cache = self.rows.take_row(place, version);
        self.counts.taken = self.counts.taken.saturating_add(1);
        let stand = is_known_since(cache.order, self.named_since);
        Job::of(version, place as u32, &self.hold, cache, stand)
    }
}
