//! Why a line is no command.
use scene_parts::{Field, NoMemory, PartFault, Word};

/// Why a line is no command. `NoMemory` can come at any time, and is never held by `Part`; of the others the first
/// that holds is the answer, in the order NotJson, NotObject, Missing and WrongType of `do`, UnknownDo, Missing,
/// WrongType, Part.
#[derive(Debug, Drop)]
pub enum LineFault {
    /// There was no memory for the command.
    NoMemory,
    /// The line is no JSON value, has bytes that aren't UTF-8, or nests deeper than 127.
    NotJson,
    /// The line is a JSON value but no object.
    NotObject,
    /// There is no such word.
    UnknownDo { word: Word },
    /// The first field in the order of the word's fields that the line lacks.
    Missing { field: Field },
    /// The first field in that order whose value is of another type; null in an optional field is so too.
    WrongType { field: Field },
    /// What the line gives is no part, grid or setting, and no line source, contour or version.
    Part(PartFault),
}

impl From<NoMemory> for LineFault {
    ghost use Rattle.std.specs.Prelude.{◌≡◌};
    ghost use Rattle.command_lines.specs.declared.faults.LineFault.TheVariants as faults;

    ghost from_gives = { λ _ e. e ≡ faults.NoMemory };

    fn from(_want: NoMemory) -> LineFault {
        LineFault::NoMemory
    }
}

impl From<PartFault> for LineFault {
    ghost use Rattle.std.specs.Prelude.{◌≡◌};
    ghost use Rattle.command_lines.specs.Answers.{line_fault_of};

    ghost from_gives = { λ fault e. e ≡ line_fault_of fault };

    fn from(fault: PartFault) -> LineFault {
        match fault {
            PartFault::NoMemory => LineFault::NoMemory,
            fault => LineFault::Part(fault),
        }
    }
}
