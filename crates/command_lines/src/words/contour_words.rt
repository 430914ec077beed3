//! The word `contour`.
ghost use Rattle.serde_json.specs.View.{view};
ghost use Rattle.scene_parts.specs.Answers.{MatchesUnlessMemory};
ghost use Rattle.command_lines.specs.Answers.{lacks_memory};
ghost use Rattle.command_lines.specs.Words.{raw_contour_of, contour_of};

use crate::commands::Command;
use crate::commands::checking::checked_contour;
use crate::commands::contours::RawContour;
use crate::faults::LineFault;
use crate::values::fields::{first_missing, needed_name, needed_whole};
use scene_parts::Field;
use serde_json::Value;
use std::alloc::Global;

/// The contours that a line asks for.
#[tactic(auto, unfolding(crate::specs::Words::contour_of))]
pub fn contour(alloc: Global, line: &Value) -> Result<Command, LineFault>
    ensures { MatchesUnlessMemory lacks_memory result (contour_of (view line.now)) }
{
    let raw = raw_contour(alloc, line)?;
    Ok(Command::Contour(checked_contour(raw)?))
}

/// The fields that contours need, in the order in which one is found missing.
const CONTOUR_FIELDS: [Field; 4] = [Field::Name, Field::Level, Field::Columns, Field::Rows];

/// What a line says of contours.
#[tactic(auto, unfolding(crate::specs::Fields::with_fields, crate::specs::Words::raw_contour_of))]
fn raw_contour(alloc: Global, line: &Value) -> Result<RawContour, LineFault>
    ensures { MatchesUnlessMemory lacks_memory result (raw_contour_of (view line.now)) }
{
    if let Some(field) = first_missing(line, &CONTOUR_FIELDS) {
        return Err(LineFault::Missing { field });
    }
    Ok(RawContour {
        name: needed_name(alloc, line, Field::Name)?,
        level: needed_whole(line, Field::Level)?,
        columns: needed_whole(line, Field::Columns)?,
        rows: needed_whole(line, Field::Rows)?,
    })
}
