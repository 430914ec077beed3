//! Edits of a board.
ghost use Rattle.std.specs.Prelude.{◌≡◌, ◌<◌, ◌≤◌, ◌+◌, ◌^◌, suc, length, Ok, Err, IfOk, IfErr, OnOk, OnErr, vec_len, vec_capacity};
ghost use Rattle.scene_parts.specs.Answers.{Unless};
ghost use Rattle.scene_book.specs.Applying.{apply_of, lacks_memory};
ghost use Rattle.map_board.specs.Machine.{EditsTo};
ghost use Rattle.map_board.specs.inner.Changes.{grid_put, most_more, named_place};

use crate::edits::log::Log;
use crate::edits::namings::{Naming, grid_of, named_receivers, note, room_for_naming};
use crate::edits::renewing::{Change, place_removed, place_to_go, rows_more, source_place};
use crate::edits::testing::{InOneThread, InThreads, PathTest};
use crate::past::Past;
use crate::rows::held_rows::HeldRows;
use crate::rows::standing::named_since;
use crate::scenes::{PreparedScene, edit_scene};
use crate::state::Board;
use scene_book::{Edit, EditFault, Logged};
use scene_parts::{Globals, GridSpec, NoMemory, Part};
use std::alloc::Global;
use std::mem;
use std::snapshot::Snapshot;
use std::thread::Threads;

impl Board {
    /// Applies an edit to the scene, and answers the new version or the first fault of the edit. Rows that the edit names are
    /// made anew or dropped; the others stay, and only what the edit touches is marked. A refusal or want of memory changes
    /// nothing; at version 2^64 - 1 there is no memory.
    pub fn edit(&mut self, alloc: Global, edit: Edit) -> Result<u64, EditFault>
        ensures { EditsTo self.old edit result self.new }
    {
        self.carry_out(alloc, edit, &InOneThread)
    }

    /// Applies an edit as `edit` does. Where many bundles are kept, and at least half of them in rows that it may touch, threads
    /// share the search for those that it touches; where no thread can be started, or there is no memory to list the bundles,
    /// the caller searches alone.
    pub fn edit_with<R: Threads + Sync>(
        &mut self,
        rt: &R,
        alloc: Global,
        edit: Edit,
    ) -> Result<u64, EditFault>
        ensures { EditsTo self.old edit result self.new }
    {
        self.carry_out(alloc, edit, &InThreads { rt })
    }

    /// Applies an edit, and finds by this test what it touches. Once the scene has it nothing can fail: a test that finds no
    /// memory leaves its work to the marks.
    fn carry_out<T: PathTest>(
        &mut self,
        alloc: Global,
        edit: Edit,
        test: &T,
    ) -> Result<u64, EditFault>
        requires { T.ready test.now }
        ensures { EditsTo self.old edit result self.new }
    {
        make_room(&mut self.log, &mut self.namings, &mut self.rows, &edit)?;
        let applied = apply(alloc, self.version, &mut self.hold, &edit)?;
        let Applied {
            old,
            grid,
            place,
            globals,
        } = applied;
        self.version += 1;
        let first = source_place(&edit, &self.hold.scene);
        let change = Change {
            logged: Logged { edit, old },
            globals,
            version: self.version,
            past: Snapshot::of(&self.past),
            first,
        };
        let gone = place_removed(&change.logged, place);
        self.named_since = named_since(self.named_since, &change.logged, self.version);
        self.rows
            .carry_over(alloc, gone, &self.hold.scene, &change, test);
        let Change {
            logged: Logged { edit, old },
            globals,
            version,
            past: _,
            first: _,
        } = change;
        let named = named_receivers(&edit, &old, grid);
        let (past, edit) = mem::replace(&mut self.past, Past::none()).and(edit);
        self.past = past;
        self.log.add(Logged { edit, old }, globals);
        self.log.trim(self.rows.least_out(version));
        note(&mut self.namings, version, named);
        Ok(version)
    }
}

/// What an edit did to a scene, and what was asked of it before: the part that it replaced or took out, the grid that it puts,
/// the place of the receiver whose name it removes, and what held of the whole scene.
struct Applied {
    old: Option<Part>,
    grid: Option<GridSpec>,
    place: Option<usize>,
    globals: Globals,
}

/// Applies an edit to the scene of a board of this version, and takes what its part needs. A fault leaves the scene as it was;
/// without a number for the next version there is no memory.
fn apply(
    alloc: Global,
    version: u64,
    hold: &mut PreparedScene,
    edit: &Edit,
) -> Result<Applied, EditFault>
    ensures fits { OnOk result (suc version < 2 ^ 64) }
    ensures made { IfOk result (λ applied. apply_of edit.now hold.old.scene
        ≡ Ok (hold.new.scene, applied.old)) }
    ensures grid { IfOk result (λ applied. applied.grid ≡ grid_put edit.now) }
    ensures place { IfOk result (λ applied. applied.place
        ≡ named_place edit.now hold.old.scene.receivers) }
    ensures globals { IfOk result (λ applied. applied.globals ≡ hold.old.scene.globals) }
    ensures fault { IfErr result (λ fault.
        Unless (lacks_memory fault) (apply_of edit.now hold.old.scene ≡ Err fault)) }
    ensures unchanged { OnErr result (hold.new.scene ≡ hold.old.scene) }
{
    let grid = grid_to_put(version, edit)?;
    let place = place_to_go(edit, &hold.scene);
    let globals = *hold.scene.globals();
    let old = edit_scene(hold, alloc, edit)?;
    Ok(Applied {
        old,
        grid,
        place,
        globals,
    })
}

/// The grid that an edit puts, if it puts one. There is no memory for an edit of the last version.
fn grid_to_put(version: u64, edit: &Edit) -> Result<Option<GridSpec>, NoMemory>
    ensures fits { OnOk result (suc version < 2 ^ 64) }
    ensures grid { IfOk result (λ grid. grid ≡ grid_put edit.now) }
{
    if version == u64::MAX {
        return Err(NoMemory);
    }
    grid_of(edit)
}

/// Makes room for what an edit adds: an entry of the log, a naming, and rows.
fn make_room(
    log: &mut Log,
    namings: &mut Vec<Naming>,
    rows: &mut HeldRows,
    edit: &Edit,
) -> Result<(), NoMemory>
    ensures start { log.new.start ≡ log.old.start }
    ensures entries { log.new.entries.items ≡ log.old.entries.items }
    ensures entry { OnOk result (vec_len log.new.entries < vec_capacity log.new.entries) }
    ensures names { namings.new.items ≡ namings.old.items }
    ensures naming { OnOk result (vec_len namings.new < vec_capacity namings.new) }
    ensures same { rows.new.items ≡ rows.old.items }
    ensures room { OnOk result
        (vec_len rows.new + most_more edit.now (length rows.old.items) ≤ vec_capacity rows.new) }
{
    log.reserve()?;
    room_for_naming(namings)?;
    rows.reserve(rows_more(edit, rows.as_slice().len()))
}
