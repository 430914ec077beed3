//! A line read as a command.
ghost use Rattle.std.specs.Prelude.{◌≡◌, ◌≢◌, Ok, Err, IfOk, IfErr};
ghost use Rattle.serde_json.specs.View.{view};
ghost use Rattle.scene_parts.specs.Answers.{MatchesUnlessMemory};
ghost use Rattle.command_lines.specs.Answers.{IsPlain, lacks_memory, viewed};
ghost use Rattle.command_lines.specs.Lines.{json_of, word_of, command_from as command_from_of, command_in as command_in_of, command_of};

use crate::commands::Command;
use crate::faults::LineFault;
use crate::values::fields::{needed, text};
use crate::words::asked;
use scene_parts::Field;
use serde_json::Value;
use std::alloc::Global;

/// The command of a line, which is its bytes without the line feed, or the first of the line's faults in the order that
/// `LineFault` tells. Memory is taken for the JSON value, and for the names, words and points that are kept of it; want
/// of it is `NoMemory` and never stands in `Part`.
#[tactic(auto, unfolding(crate::specs::Lines::command_of))]
pub fn command(alloc: Global, line: &[u8]) -> Result<Command, LineFault>
    ensures value { MatchesUnlessMemory lacks_memory result (command_of line.now) }
    ensures plain { IfErr result IsPlain }
{
    match str::from_utf8(line) {
        Ok(text) => command_in(alloc, text),
        Err(_) => Err(LineFault::NotJson),
    }
}

#[tactic(auto, unfolding(crate::specs::Lines::command_in))]
fn command_in(alloc: Global, text: &str) -> Result<Command, LineFault>
    ensures { MatchesUnlessMemory lacks_memory result (command_in_of text.now) }
{
    let line = parsed(alloc, text)?;
    command_from(alloc, &line)
}

#[tactic(auto, unfolding(crate::specs::Lines::command_from))]
fn command_from(alloc: Global, line: &Value) -> Result<Command, LineFault>
    ensures { MatchesUnlessMemory lacks_memory result (command_from_of (view line.now)) }
{
    if !line.is_object() {
        return Err(LineFault::NotObject);
    }
    let word = word_in(line)?;
    asked(alloc, word, line)
}

/// The word of a line: the text of its field `do`.
#[tactic(auto, unfolding(crate::specs::Lines::word_of, crate::specs::Fields::with_fields))]
fn word_in(line: &Value) -> Result<&str, LineFault>
    ensures word { IfOk result (λ word. word_of (view line.now) ≡ Ok word.now) }
    ensures fault { IfErr result (λ fault. word_of (view line.now) ≡ Err fault) }
    ensures plain { IfErr result (λ fault. fault ≢ LineFault.NoMemory) }
{
    let word = needed(line, Field::Do)?;
    text(Field::Do, word)
}

/// The JSON value of a text.
#[tactic(auto, unfolding(crate::specs::Lines::json_of))]
fn parsed(alloc: Global, text: &str) -> Result<Value, LineFault>
    ensures { MatchesUnlessMemory lacks_memory (viewed result) (json_of text.now) }
{
    match Value::from_str(alloc, text) {
        Ok(value) => Ok(value),
        Err(error) if error.is_memory() => Err(LineFault::NoMemory),
        Err(_) => Err(LineFault::NotJson),
    }
}
