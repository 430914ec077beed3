//! Rows on their way to a sink.
ghost use Rattle.std.specs.Prelude.{◌≡◌, [], ◌∷◌, ◌++◌, ◌≤◌, flat_map, length, slice_index};
ghost use Rattle.scene_book.specs.Book.{most_receivers};
ghost use Rattle.map_text.specs.Rows.{refused_row, counts_row};
ghost use Rattle.map_text.specs.Looks.{receiver_rows, look_rows, counts_rows};
ghost use Rattle.map_text.specs.Taking.{Takes, CausedByWriteFault, IsSameSink};

use crate::counted::counts_text;
use crate::heads::{Head, head_text};
use crate::looks::{receiver_text, row_text};
use crate::refusals::Refusal;
use crate::refused::refused_text;
use crate::stopped::Stopped;
use csv_rows::{RowText, RowWriter};
use map_board::{LookAll, LookRow};
use map_io::{Sink, put_all};

/// How many receivers a look shows.
pub(crate) fn count_of(look: &LookAll) -> u32
    requires { length look.now.rows ≤ most_receivers }
    ensures { result ≡ length look.now.rows }
{
    look.rows.items().len() as u32
}

/// What makes rows, where they go, and which of them are asked for.
///
/// Each call writes its rows in their order, each row made before the sink gets any of it. A call that is stopped says
/// why, and what the sink has then taken of its rows; a write fault is answered only where the sink failed.
#[derive(Drop)]
pub struct Rows<'a, K> {
    /// What makes the rows.
    pub writer: &'a mut RowWriter,
    /// Where they go.
    pub out: &'a mut K,
    /// Whether the rows of bands are asked for.
    pub bands: bool,
    /// Whether the row of counts behind a settle is asked for.
    pub counts: bool,
}

impl<'a, K: Sink> Rows<'a, K> {
    /// Writes one row.
    fn put(&mut self, row: &[u8]) -> Result<(), Stopped>
        ensures taken { Takes result (K.taken self.old.out.now) (K.taken self.new.out.now)
            (row.now ∷ []) }
        ensures cause { CausedByWriteFault result (K.faults self.old.out.now)
            (K.faults self.new.out.now) }
        ensures same { IsSameSink self.old self.new }
    {
        put_all(self.out, row)?;
        Ok(())
    }

    /// Writes these rows.
    pub fn put_each(&mut self, texts: &[RowText]) -> Result<(), Stopped>
        ensures taken { Takes result (K.taken self.old.out.now) (K.taken self.new.out.now)
            texts.now }
        ensures cause { CausedByWriteFault result (K.faults self.old.out.now)
            (K.faults self.new.out.now) }
        ensures same { IsSameSink self.old self.new }
    {
        for text in texts {
            self.put(text.items())?;
        }
        Ok(())
    }

    /// Writes the row of a refused line, by its number from 1 and the version then.
    pub fn refuse(&mut self, version: u64, number: u64, fault: &Refusal) -> Result<(), Stopped>
        ensures taken { Takes result (K.taken self.old.out.now) (K.taken self.new.out.now)
            (refused_row version number fault.now ∷ []) }
        ensures cause { CausedByWriteFault result (K.faults self.old.out.now)
            (K.faults self.new.out.now) }
        ensures same { IsSameSink self.old self.new }
    {
        let row = refused_text(self.writer, version, number, fault)?;
        self.put(row.as_slice())
    }

    /// Writes the rows of a settle, and behind them the row of counts where it is asked for.
    pub fn settle(&mut self, look: &LookAll) -> Result<(), Stopped>
        requires { length look.now.rows ≤ most_receivers }
        ensures taken { Takes result (K.taken self.old.out.now) (K.taken self.new.out.now)
            (look_rows Head.Settle self.old.bands look.now
            ++ counts_rows self.old.counts look.now) }
        ensures cause { CausedByWriteFault result (K.faults self.old.out.now)
            (K.faults self.new.out.now) }
        ensures same { IsSameSink self.old self.new }
    {
        self.look(Head::Settle, look)?;
        self.counts_asked(look)
    }

    /// Writes the rows of a look under this head, those of bands among them where they are asked for.
    #[tactic(auto, unfolding(crate::specs::Looks::look_rows))]
    pub fn look(&mut self, head: Head, look: &LookAll) -> Result<(), Stopped>
        requires { length look.now.rows ≤ most_receivers }
        ensures taken { Takes result (K.taken self.old.out.now) (K.taken self.new.out.now)
            (look_rows head self.old.bands look.now) }
        ensures cause { CausedByWriteFault result (K.faults self.old.out.now)
            (K.faults self.new.out.now) }
        ensures same { IsSameSink self.old self.new }
    {
        let count = count_of(look);
        let row = head_text(self.writer, head, look.version, count)?;
        self.put(row.as_slice())?;
        self.receivers(look.version, look.rows.items())
    }

    fn receivers(&mut self, version: u64, rows: &[LookRow]) -> Result<(), Stopped>
        ensures taken { Takes result (K.taken self.old.out.now) (K.taken self.new.out.now)
            (flat_map (receiver_rows self.old.bands version) rows.now) }
        ensures cause { CausedByWriteFault result (K.faults self.old.out.now)
            (K.faults self.new.out.now) }
        ensures same { IsSameSink self.old self.new }
    {
        for row in rows {
            self.receiver(version, row)?;
        }
        Ok(())
    }

    /// Writes the row of a receiver, and those of its bands where they are asked for. The row alone needs no list.
    fn receiver(&mut self, version: u64, row: &LookRow) -> Result<(), Stopped>
        ensures taken { Takes result (K.taken self.old.out.now) (K.taken self.new.out.now)
            (receiver_rows self.old.bands version row.now) }
        ensures cause { CausedByWriteFault result (K.faults self.old.out.now)
            (K.faults self.new.out.now) }
        ensures same { IsSameSink self.old self.new }
    {
        if self.bands {
            let texts = row_text(self.writer, version, row, true)?;
            self.put_each(texts.items())
        } else {
            let text = receiver_text(self.writer, version, row)?;
            self.put(text.as_slice())
        }
    }

    fn counts_asked(&mut self, look: &LookAll) -> Result<(), Stopped>
        requires { length look.now.rows ≤ most_receivers }
        ensures taken { Takes result (K.taken self.old.out.now) (K.taken self.new.out.now)
            (counts_rows self.old.counts look.now) }
        ensures cause { CausedByWriteFault result (K.faults self.old.out.now)
            (K.faults self.new.out.now) }
        ensures same { IsSameSink self.old self.new }
    {
        if self.counts {
            self.tally(look)
        } else {
            Ok(())
        }
    }

    /// Writes the row of counts of a settle.
    fn tally(&mut self, look: &LookAll) -> Result<(), Stopped>
        requires { length look.now.rows ≤ most_receivers }
        ensures taken { Takes result (K.taken self.old.out.now) (K.taken self.new.out.now)
            (counts_row look.now.version (length look.now.rows)
            (slice_index look.now.counts 0) (slice_index look.now.counts 1)
            (slice_index look.now.counts 2) (slice_index look.now.counts 3) ∷ []) }
        ensures cause { CausedByWriteFault result (K.faults self.old.out.now)
            (K.faults self.new.out.now) }
        ensures same { IsSameSink self.old self.new }
    {
        let count = count_of(look);
        let [taken, kept, gone, back] = look.counts;
        let row = counts_text(self.writer, look.version, count, taken, kept, gone, back)?;
        self.put(row.as_slice())
    }
}
