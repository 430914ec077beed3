//! What each word of `do` asks for.
ghost use Rattle.serde_json.specs.View.{view};
ghost use Rattle.scene_parts.specs.Answers.{MatchesUnlessMemory};
ghost use Rattle.command_lines.specs.Answers.{lacks_memory};
ghost use Rattle.command_lines.specs.Words.{removal_of, unline_of, undo_of, raw_version_of, checked_edit, asked as asked_of};

pub(crate) mod contour_words;
pub(crate) mod line_words;
pub(crate) mod part_words;

use crate::commands::Command;
use crate::commands::checking::version;
use crate::faults::LineFault;
use crate::values::fields::{needed, part_name, plain_name, whole};
use crate::words::contour_words::contour;
use crate::words::line_words::line_source;
use crate::words::part_words::part;
use scene_book::Edit;
use scene_parts::{Field, RawPart, check};
use serde_json::Value;
use std::alloc::Global;

/// The command that a word of `do` asks for with the fields of its line.
#[tactic(auto, unfolding(crate::specs::Words::asked))]
pub fn asked(alloc: Global, word: &str, line: &Value) -> Result<Command, LineFault>
    ensures { MatchesUnlessMemory lacks_memory result (asked_of word.now (view line.now)) }
{
    match word {
        "settle" => Ok(Command::Settle),
        "look" => Ok(Command::Look),
        "remove" => removal(alloc, line),
        "contour" => contour(alloc, line),
        "line" => line_source(alloc, line),
        "unline" => unline(alloc, line),
        "undo" => undo(line),
        other => checked(alloc, part(alloc, other, line)?),
    }
}

/// The edit of what a line gives, where it is in its ranges.
#[tactic(auto, unfolding(crate::specs::Words::checked_edit))]
fn checked(alloc: Global, part: RawPart) -> Result<Command, LineFault>
    ensures { MatchesUnlessMemory lacks_memory result (checked_edit part) }
{
    Ok(Command::Edit(Edit::from(check(alloc, part)?)))
}

/// The removal of the part of a name.
#[tactic(auto, unfolding(crate::specs::Fields::with_fields, crate::specs::Words::removal_of))]
fn removal(alloc: Global, line: &Value) -> Result<Command, LineFault>
    ensures { MatchesUnlessMemory lacks_memory result (removal_of (view line.now)) }
{
    let name = needed(line, Field::Name)?;
    Ok(Command::Edit(Edit::Remove(part_name(alloc, Field::Name, name)?)))
}

/// That the line source of a name is taken out.
#[tactic(auto, unfolding(crate::specs::Fields::with_fields, crate::specs::Words::unline_of))]
fn unline(alloc: Global, line: &Value) -> Result<Command, LineFault>
    ensures { MatchesUnlessMemory lacks_memory result (unline_of (view line.now)) }
{
    let name = needed(line, Field::Name)?;
    let name = plain_name(alloc, Field::Name, name)?;
    Ok(Command::Unline(name.into_name()))
}

/// The undo to the version that a line gives.
#[tactic(auto, unfolding(crate::specs::Words::undo_of))]
fn undo(line: &Value) -> Result<Command, LineFault>
    ensures { MatchesUnlessMemory lacks_memory result (undo_of (view line.now)) }
{
    let raw = raw_version(line)?;
    Ok(Command::Undo(version(raw)?))
}

/// The version that a line gives, whatever it is.
#[tactic(auto, unfolding(crate::specs::Fields::with_fields, crate::specs::Words::raw_version_of))]
fn raw_version(line: &Value) -> Result<i64, LineFault>
    ensures { MatchesUnlessMemory lacks_memory result (raw_version_of (view line.now)) }
{
    let to = needed(line, Field::To)?;
    whole(Field::To, to)
}
