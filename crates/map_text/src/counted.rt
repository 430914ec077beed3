//! The row of what a board has counted.
ghost use Rattle.std.specs.Prelude.{◌≡◌, IfOk};
ghost use Rattle.map_text.specs.Rows.{counts_row};

use csv_rows::{RowWriter, digits};
use scene_parts::NoMemory;

/// The row of the counts at a settle: the version, how many receivers there are, and how many jobs were taken, answers kept,
/// answers gone, and jobs given back in the history so far.
#[tactic(auto, unfolding(crate::specs::Rows::counts_row))]
pub fn counts_text(
    writer: &mut RowWriter,
    version: u64,
    rows: u32,
    taken: u64,
    kept: u64,
    gone: u64,
    back: u64,
) -> Result<Vec<u8>, NoMemory>
    ensures { IfOk result (λ text. text.items ≡ counts_row version rows taken kept gone back) }
{
    let version = digits(version);
    let rows = digits(rows);
    let taken = digits(taken);
    let kept = digits(kept);
    let gone = digits(gone);
    let back = digits(back);
    writer.fields_text(
        b"counts",
        version.as_bytes(),
        rows.as_bytes(),
        taken.as_bytes(),
        kept.as_bytes(),
        gone.as_bytes(),
        back.as_bytes(),
    )
}
