//! The rows at the head of settles and looks.
ghost use Rattle.std.specs.Prelude.{◌≡◌, IfOk};
ghost use Rattle.map_text.specs.Rows.{head_word, head_row};

use csv_rows::{RowWriter, digits};
use scene_parts::NoMemory;

/// What was asked for.
#[derive(Clone, Copy, Debug, PartialEq, Eq)]
pub enum Head {
    /// To calculate all levels and to show them.
    Settle,
    /// To show what is known.
    Look,
}

fn word(head: Head) -> &'static [u8]
    ensures { result.now ≡ head_word head }
{
    match head {
        Head::Settle => b"settle",
        Head::Look => b"look",
    }
}

/// The row at the head of a settle or a look: the version, and how many receivers there are.
#[tactic(auto, unfolding(crate::specs::Rows::head_row))]
pub fn head_text(
    writer: &mut RowWriter,
    kind: Head,
    version: u64,
    rows: u32,
) -> Result<Vec<u8>, NoMemory>
    ensures { IfOk result (λ text. text.items ≡ head_row kind version rows) }
{
    let version = digits(version);
    let rows = digits(rows);
    writer.fields_text(
        word(kind),
        version.as_bytes(),
        rows.as_bytes(),
        b"",
        b"",
        b"",
        b"",
    )
}
