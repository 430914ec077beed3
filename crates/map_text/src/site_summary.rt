//! What the lines of a generated site come to.
ghost use Rattle.std.specs.Prelude.{◌≡◌, ◌+◌, ◌-◌, ◌<◌, ◌≤◌, ◌^◌, IfOk, IfSome, length};
ghost use Rattle.scene_book.specs.Book.{most_receivers};
ghost use Rattle.path_calc.specs.Levels.{IsLevel};
ghost use Rattle.map_text.specs.SiteSummary.{nothing_told, widened, span_of_rows, row_of_summary};

use crate::levels::made_text;
use crate::rows::count_of;
use csv_rows::RowWriter;
use fix_interval::{Iv, exact, hull};
use map_board::{LookAll, LookRow, Shown};
use scene_parts::NoMemory;
use std::alloc::Global;

/// What the lines so far have come to.
#[derive(Drop)]
pub struct SiteSummary {
    /// How many of them were refused.
    pub refused: u64,
    /// How many receivers there were at the last settle.
    pub receivers: u32,
    /// Their levels then in dB, from the least low end to the greatest high end.
    pub span: Iv,
}

impl SiteSummary {
    /// Before the first line: no receivers, and 0 dB.
    pub fn empty() -> SiteSummary
        ensures made { result ≡ nothing_told }
        ensures level { IsLevel result.span }
    {
        SiteSummary {
            refused: 0,
            receivers: 0,
            span: exact(0),
        }
    }

    /// Adds a line that was refused.
    pub fn refuse(&mut self)
        requires { self.old.refused < 2 ^ 64 - 1 }
        ensures { self.new ≡ record self.old { refused = self.old.refused + 1 } }
    {
        self.refused += 1;
    }

    /// Adds a settle that shows this: its receivers and their levels take the place of those before.
    pub fn settle(&mut self, look: &LookAll)
        requires { length look.now.rows ≤ most_receivers }
        ensures made { self.new ≡ record self.old {
          receivers = length look.now.rows;
          span = span_of_rows look.now.rows;
        } }
        ensures level { IsLevel self.new.span }
    {
        self.receivers = count_of(look);
        self.span = span(look.rows.items());
    }

    /// The row that tells what the lines of the site of this number have come to, and the version.
    pub fn row(&self, alloc: Global, number: u32, version: u64) -> Result<Vec<u8>, NoMemory>
        requires { IsLevel self.now.span }
        ensures { IfOk result (λ text. text.items ≡ row_of_summary number version self.now) }
    {
        let low = self.span.low().unwrap_or(0);
        let high = self.span.high().unwrap_or(0);
        made_text(
            &mut RowWriter::new(alloc),
            version,
            self.receivers,
            number,
            self.refused,
            low,
            high,
        )
    }
}

/// The levels of all receivers that are current in dB, from the least low end to the greatest high end.
fn span(rows: &[LookRow]) -> Iv
    ensures value { result ≡ span_of_rows rows.now }
    ensures level { IsLevel result }
{
    let mut span = None;
    for row in rows {
        if let Shown::Current(levels) = &row.shown {
            span = hull_with(span, levels.total);
        }
    }
    span.unwrap_or(exact(0))
}

/// The levels so far, and one more.
fn hull_with(span: Option<Iv>, level: Iv) -> Option<Iv>
    requires span { IfSome span IsLevel }
    requires level { IsLevel level }
    ensures value { result ≡ widened span level }
    ensures level { IfSome result IsLevel }
{
    match span {
        Some(span) => Some(hull(span, level)),
        None => Some(level),
    }
}
