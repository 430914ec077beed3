//! The rows of refused lines.
ghost use Rattle.std.specs.Prelude.{◌≡◌, IfOk, IsErr, IsTrue, decimal};
ghost use Rattle.scene_parts.specs.declared.faults.PartFault.TheVariants as parts;
ghost use Rattle.scene_parts.specs.Answers as part_answers;
ghost use Rattle.scene_book.specs.declared.edits.EditFault.TheVariants as edits;
ghost use Rattle.map_text.specs.Faults.{about, part_fault_text, line_fault_text, edit_fault_text, refusal_text, lacks_memory};
ghost use Rattle.map_text.specs.declared.refusals.Refusal.TheVariants as refusals;
ghost use Rattle.map_text.specs.Rows.{fault_row, said_row, refused_row};

use crate::refusals::Refusal;
use command_lines::LineFault;
use csv_rows::{RowWriter, digits};
use scene_book::EditFault;
use scene_parts::{Class, Field, NoMemory, PartFault};

/// A refused line: its number from 1, and the version then.
#[derive(Clone, Copy)]
struct RefusedLine {
    version: u64,
    number: u64,
}

impl RefusedLine {
    /// The row of a fault, by its name, and two texts that say more of it.
    #[tactic(auto, unfolding(crate::specs::Rows::fault_row))]
    fn row(
        self,
        writer: &mut RowWriter,
        fault: &[u8],
        first: &[u8],
        second: &[u8],
    ) -> Result<Vec<u8>, NoMemory>
        ensures { IfOk result (λ text. text.items
            ≡ fault_row self.version self.number fault.now first.now second.now) }
    {
        let version = digits(self.version);
        let number = digits(self.number);
        writer.fields_text(
            b"refused",
            version.as_bytes(),
            number.as_bytes(),
            fault,
            first,
            second,
            b"",
        )
    }

    fn about_number(
        self,
        writer: &mut RowWriter,
        fault: &[u8],
        value: u32,
    ) -> Result<Vec<u8>, NoMemory>
        ensures { IfOk result (λ text. text.items
            ≡ said_row self.version self.number (about fault.now (decimal value))) }
    {
        let value = digits(value);
        self.row(writer, fault, value.as_bytes(), b"")
    }

    fn no_such_version(self, writer: &mut RowWriter, version: u64) -> Result<Vec<u8>, NoMemory>
        ensures { IfOk result (λ text. text.items
            ≡ said_row self.version self.number (refusal_text (refusals.NoSuchVersion version))) }
    {
        let version = digits(version);
        self.row(writer, b"NoSuchVersion", version.as_bytes(), b"")
    }

    fn out_of_range(
        self,
        writer: &mut RowWriter,
        field: Field,
        value: i64,
    ) -> Result<Vec<u8>, NoMemory>
        ensures { IfOk result (λ text. text.items
            ≡ said_row self.version self.number (part_fault_text (parts.OutOfRange field value))) }
    {
        let value = digits(value);
        self.row(
            writer,
            b"OutOfRange",
            field.word().as_bytes(),
            value.as_bytes(),
        )
    }

    fn side_too_long(self, writer: &mut RowWriter, side: u32, mm: u32) -> Result<Vec<u8>, NoMemory>
        ensures { IfOk result (λ text. text.items
            ≡ said_row self.version self.number (part_fault_text (parts.SideTooLong side mm))) }
    {
        let side = digits(side);
        let mm = digits(mm);
        self.row(writer, b"SideTooLong", side.as_bytes(), mm.as_bytes())
    }

    fn full(self, writer: &mut RowWriter, class: Class, limit: u32) -> Result<Vec<u8>, NoMemory>
        ensures { IfOk result (λ text. text.items
            ≡ said_row self.version self.number (edit_fault_text (edits.Full class limit))) }
    {
        let limit = digits(limit);
        self.row(writer, b"Full", class.word().as_bytes(), limit.as_bytes())
    }

    fn part_fault(self, writer: &mut RowWriter, fault: &PartFault) -> Result<Vec<u8>, NoMemory>
        ensures row { IfOk result (λ text. text.items
            ≡ said_row self.version self.number (part_fault_text fault.now)) }
        ensures want { IsTrue (part_answers.lacks_memory fault.now) → IsErr result }
    {
        match fault {
            PartFault::NoMemory => Err(NoMemory),
            PartFault::OutOfRange { field, value } => self.out_of_range(writer, *field, *value),
            PartFault::OutsideMethod { kind } => self.row(
                writer,
                b"OutsideMethod",
                kind.items(),
                b"",
            ),
            PartFault::UnknownKind { kind } => self.row(writer, b"UnknownKind", kind.items(), b""),
            PartFault::TooLight { density } => self.about_number(writer, b"TooLight", *density),
            PartFault::FewCorners { count } => self.about_number(writer, b"FewCorners", *count),
            PartFault::FlatShape => self.row(writer, b"FlatShape", b"", b""),
            PartFault::SideTooLong { side, mm } => self.side_too_long(writer, *side, *mm),
            PartFault::WeakMirror { rho } => self.about_number(
                writer,
                b"WeakMirror",
                (*rho).into(),
            ),
        }
    }

    fn line_fault(self, writer: &mut RowWriter, fault: &LineFault) -> Result<Vec<u8>, NoMemory>
        ensures row { IfOk result (λ text. text.items
            ≡ said_row self.version self.number (line_fault_text fault.now)) }
        ensures want { IsTrue (lacks_memory (Refusal.Line fault.now)) → IsErr result }
    {
        match fault {
            LineFault::NoMemory => Err(NoMemory),
            LineFault::NotJson => self.row(writer, b"NotJson", b"", b""),
            LineFault::NotObject => self.row(writer, b"NotObject", b"", b""),
            LineFault::UnknownDo { word } => self.row(writer, b"UnknownDo", word.items(), b""),
            LineFault::Missing { field } => {
                self.row(writer, b"Missing", field.word().as_bytes(), b"")
            }
            LineFault::WrongType { field } => {
                self.row(writer, b"WrongType", field.word().as_bytes(), b"")
            }
            LineFault::Part(fault) => self.part_fault(writer, fault),
        }
    }

    fn edit_fault(self, writer: &mut RowWriter, fault: &EditFault) -> Result<Vec<u8>, NoMemory>
        ensures row { IfOk result (λ text. text.items
            ≡ said_row self.version self.number (edit_fault_text fault.now)) }
        ensures want { IsTrue (lacks_memory (Refusal.Edit fault.now)) → IsErr result }
    {
        match fault {
            EditFault::NoMemory => Err(NoMemory),
            EditFault::NoSuchName { name } => self.row(writer, b"NoSuchName", name.items(), b""),
            EditFault::OtherClass { name, class } => {
                self.row(writer, b"OtherClass", name.items(), class.word().as_bytes())
            }
            EditFault::Full { class, limit } => self.full(writer, *class, *limit),
        }
    }
}

/// The row of a refused line, by its number from 1 and the version then. Want of memory is no refusal: a fault that is
/// one has no row, and is answered as want of memory.
pub fn refused_text(
    writer: &mut RowWriter,
    version: u64,
    line: u64,
    fault: &Refusal,
) -> Result<Vec<u8>, NoMemory>
    ensures row { IfOk result (λ text. text.items ≡ refused_row version line fault.now) }
    ensures want { IsTrue (lacks_memory fault.now) → IsErr result }
{
    let refused = RefusedLine {
        version,
        number: line,
    };
    match fault {
        Refusal::LongLine => refused.row(writer, b"LongLine", b"", b""),
        Refusal::Line(fault) => refused.line_fault(writer, fault),
        Refusal::Edit(fault) => refused.edit_fault(writer, fault),
        Refusal::NoSuchVersion { version } => refused.no_such_version(writer, *version),
    }
}
