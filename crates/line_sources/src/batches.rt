//! Commands that make edits together, made out in a scene.
ghost use Rattle.std.specs.Prelude.{IfOk, IsOk};
ghost use Rattle.scene_parts.specs.Answers.{MatchesUnlessMemory};
ghost use Rattle.scene_book.specs.Applying.{lacks_memory, applied};
ghost use Rattle.line_sources.specs.Pieces.{batch_edits_of};

use crate::edits::LineEdits;
use crate::lines::{pieces, unline};
use command_lines::Command;
use scene_book::{EditFault, Scene};
use std::alloc::Global;

/// The edits of a command that makes edits together, all or none, as `line` and `unline` do: those which a scene accepts
/// one after the other, or the first fault that it answers. None of any other command. The scene stays as it is.
pub fn batch_edits(alloc: Global, command: &Command, scene: &Scene) -> Result<LineEdits, EditFault>
    ensures value { MatchesUnlessMemory lacks_memory result (batch_edits_of command.now scene.now) }
    ensures accepted { IfOk result (λ edits. IsOk (applied edits scene.now)) }
{
    match command {
        Command::Line(line) => pieces(alloc, line, scene),
        Command::Unline(name) => unline(alloc, name, scene),
        _ => Ok(LineEdits::from_vec(Vec::new(alloc))),
    }
}
