//! The word `line`.
ghost use Rattle.serde_json.specs.View.{view};
ghost use Rattle.scene_parts.specs.Answers.{MatchesUnlessMemory};
ghost use Rattle.command_lines.specs.Answers.{lacks_memory};
ghost use Rattle.command_lines.specs.Words.{raw_line_source_of, line_source_of};

use crate::commands::Command;
use crate::commands::checking::checked_line_source;
use crate::commands::line_sources::RawLineSource;
use crate::faults::LineFault;
use crate::values::fields::{
    first_missing, needed_name, needed_points, needed_powers, needed_whole, needed_word,
    optional_whole,
};
use scene_parts::Field;
use serde_json::Value;
use std::alloc::Global;

/// The line source that a line asks for.
#[tactic(auto, unfolding(crate::specs::Words::line_source_of))]
pub fn line_source(alloc: Global, line: &Value) -> Result<Command, LineFault>
    ensures { MatchesUnlessMemory lacks_memory result (line_source_of (view line.now)) }
{
    let raw = raw_line_source(alloc, line)?;
    Ok(Command::Line(checked_line_source(alloc, raw)?))
}

/// The fields that a line source needs, in the order in which one is found missing.
const LINE_SOURCE_FIELDS: [Field; 6] = [
    Field::Name,
    Field::Kind,
    Field::Points,
    Field::H,
    Field::Lw,
    Field::Piece,
];

/// What a line says of a line source.
#[tactic(auto, unfolding(crate::specs::Fields::with_fields, crate::specs::Words::raw_line_source_of))]
fn raw_line_source(alloc: Global, line: &Value) -> Result<RawLineSource, LineFault>
    ensures { MatchesUnlessMemory lacks_memory result (raw_line_source_of (view line.now)) }
{
    if let Some(field) = first_missing(line, &LINE_SOURCE_FIELDS) {
        return Err(LineFault::Missing { field });
    }
    Ok(RawLineSource {
        name: needed_name(alloc, line, Field::Name)?,
        kind: needed_word(alloc, line, Field::Kind)?,
        points: needed_points(alloc, line, Field::Points)?,
        h: needed_whole(line, Field::H)?,
        lw: needed_powers(line, Field::Lw)?,
        dc: optional_whole(line, Field::Dc)?.unwrap_or(0),
        piece: needed_whole(line, Field::Piece)?,
    })
}
