//! Jobs and answers that come back to the rows of a board: what they have in common.
ghost use Rattle.std.specs.Prelude.{◌≡◌, ◌+◌, ◌<◌, ◌^◌, length, slice_get, Some};
ghost use Rattle.scene_book.specs.Lists.{named};
ghost use Rattle.map_board.specs.inner.Back.{row_with, SuitsAt};
ghost use Rattle.map_board.specs.Journal.{first_naming};
ghost use Rattle.map_board.specs.inner.Log.{entries_after};
ghost use Rattle.map_board.specs.Rows.{row_named, version_out, with_row};

use crate::edits::log::LogEntry;
use crate::edits::namings::first_naming;
use crate::returns::later::entries_since;
use crate::rows::Back;
use crate::state::Board;
use scene_book::Scene;
use scene_parts::Receiver;

/// Where a job or an answer comes back: the place of its row, its receiver, and the edits since its version.
pub(crate) struct Landing<'a> {
    pub place: usize,
    pub receiver: &'a Receiver,
    pub later: &'a [LogEntry],
}

impl Board {
    /// The first edit after a version that names a receiver.
    pub(crate) fn naming_since(&self, version: u64, name: &[u8]) -> Option<u64>
        ensures { result ≡ first_naming self.now.journal version name.now }
    {
        first_naming(self.namings.as_slice(), version, name)
    }

    /// Where what is out for a receiver since a version comes back.
    pub(crate) fn landing_of<'a>(&'a self, version: u64, name: &[u8]) -> Landing<'a>
        requires { version_out name.now self.now.rows ≡ Some version }
        ensures place { slice_get self.now.rows result.place ≡ row_named name.now self.now.rows }
        ensures receiver { (row : _) → row_named name.now self.now.rows ≡ Some row
            → result.receiver.now ≡ row.receiver }
        ensures later { result.later.now ≡ entries_after self.now.journal version }
        ensures few { version + length result.later.now < 2 ^ 64 }
    {
        let scene = &self.hold.scene;
        let place = place_in(scene, name);
        let later = entries_since(self.log.entries.as_slice(), self.version(), version);
        Landing {
            place,
            receiver: &scene.receivers()[place],
            later,
        }
    }

    /// Puts what comes back into the row at its place.
    pub(crate) fn land(&mut self, place: usize, back: Back)
        requires { SuitsAt self.old place back }
        ensures { (row : _) → slice_get self.old.rows place ≡ Some row → self.new ≡ record self.old {
          rows = with_row row.receiver.name (row_with back.kept) self.old.rows;
        } }
    {
        self.rows.put_back(place, back);
    }
}

/// The place of the receiver of a name, or the number of receivers where there is none.
fn place_in(scene: &Scene, name: &[u8]) -> usize
    ensures { slice_get scene.now.receivers result ≡ named (λ r. r.name) name.now scene.now.receivers }
{
    match scene.receiver_place(name) {
        Some(place) => place,
        None => scene.receivers().len(),
    }
}
