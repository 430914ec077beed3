//! A writer of rows of text.
ghost use Rattle.std.specs.Prelude.{◌≡◌, ◌++◌, [], ◌∷◌, length, map, IfOk, OnOk, vec_len};
ghost use Rattle.std.specs.Option.{ForSome};
ghost use Rattle.csv.specs.Writing.{writer_under};
ghost use Rattle.csv_rows.specs.Rows.{row};
ghost use Rattle.csv_rows.specs.inner.Ready.{IsReady};

use csv::{Writer, WriterBuilder};
use scene_parts::NoMemory;
use std::alloc::Global;

/// How many bytes of earlier rows a writer of the kit is kept with at most.
const MAX_KEPT: usize = 65_536;

/// Makes the texts of rows, one after another. One writer of the kit serves many rows, since a new one costs several times
/// what a row does: it holds an array of 8 KB. The bytes of the rows that it has written stay behind it, so another takes
/// its place once they are many.
#[derive(Drop)]
pub struct RowWriter {
    alloc: Global,
    writer: Option<Box<Writer<Vec<u8>>>>,
    ghost ready: { ForSome writer (λ kept. IsReady kept.value) },
}

impl RowWriter {
    /// A writer that has written nothing. It takes its memory with the first row.
    pub fn new(alloc: Global) -> Self
        ensures { result.alloc ≡ alloc }
    {
        RowWriter {
            alloc,
            writer: None,
        }
    }

    /// Where its memory comes from.
    pub fn alloc(&self) -> Global
        ensures { result ≡ self.now.alloc }
    {
        self.alloc
    }

    /// The row of seven fields, called by what they are in the row of a receiver: each row that goes out is made here.
    /// Want of memory leaves the writer fit for other rows.
    pub fn fields_text(
        &mut self,
        kind: &[u8],
        version: &[u8],
        receiver: &[u8],
        state: &[u8],
        by: &[u8],
        low: &[u8],
        high: &[u8],
    ) -> Result<Vec<u8>, NoMemory>
        ensures { IfOk result (λ text. text.items
            ≡ row (kind.now ∷ version.now ∷ receiver.now ∷ state.now
            ∷ by.now ∷ low.now ∷ high.now ∷ [])) }
    {
        let mut writer = self.take_writer()?;
        let fields = [kind, version, receiver, state, by, low, high];
        let text = written(self.alloc, &mut writer, &fields)?;
        if writer.get_ref().len() <= MAX_KEPT {
            self.writer = Some(writer);
        }
        Ok(text)
    }

    /// Takes the writer that is kept, or a new one where none is.
    fn take_writer(&mut self) -> Result<Box<Writer<Vec<u8>>>, NoMemory>
        ensures { IfOk result (λ writer. IsReady writer.value) }
    {
        match self.writer.take() {
            Some(writer) => Ok(writer),
            None => new_writer(self.alloc),
        }
    }
}

/// A writer of the kit that has written nothing.
fn new_writer(alloc: Global) -> Result<Box<Writer<Vec<u8>>>, NoMemory>
    ensures { IfOk result (λ writer. IsReady writer.value) }
{
    let writer = WriterBuilder::new().from_writer(Vec::new(alloc));
    Ok(Box::new(alloc, writer)?)
}

/// The text of one more row: what the writer puts behind the rows before it.
fn written(
    alloc: Global,
    writer: &mut Writer<Vec<u8>>,
    fields: &[&[u8]],
) -> Result<Vec<u8>, NoMemory>
    requires { IsReady writer.old }
    ensures text { IfOk result (λ text. text.items ≡ row (map (λ field. field.now) fields.now)) }
    ensures ready { OnOk result (IsReady writer.new) }
{
    let before = writer.get_ref().len();
    put_row(writer, fields)?;
    let all = writer.get_ref().as_slice();
    Ok(all[before..].to_vec(alloc)?)
}

/// Has the writer put a row behind the others.
#[tactic(auto, unfolding(crate::specs::Rows::row))]
fn put_row(writer: &mut Writer<Vec<u8>>, fields: &[&[u8]]) -> Result<(), NoMemory>
    requires { IsReady writer.old }
    ensures added { OnOk result ((writer_under writer.new).items ≡ (writer_under writer.old).items
        ++ row (map (λ field. field.now) fields.now)) }
    ensures ready { OnOk result (IsReady writer.new) }
{
    writer.write_fields(fields).map_err(|_| NoMemory)?;
    writer.flush().map_err(|_| NoMemory)
}
