//! The words matched with the options, by `clap`.
ghost use Rattle.std.specs.List.{list_any};
ghost use Rattle.std.specs.Prelude.{◌≡◌, IfOk, false, bytes_eq, codes, map, string_bytes};
ghost use Rattle.clap.specs.Words.{app_of, rule_of};
ghost use Rattle.command_words.specs.inner.Choices.{MatchesLine, are_odd as are_odd_in, flag_rule, noisemap_app, valued_rule};
ghost use Rattle.command_words.specs.Words.{command_line_of};

use crate::line::WordsFault;
use clap::error::ErrorKind;
use clap::{Arg, ArgAction, ArgMatches, Command};
use std::alloc::{AllocError, Global};

/// The option of this name, which takes no value.
fn flag<'a>(alloc: Global, name: &'a str) -> Arg<'a>
    ensures rule { rule_of result ≡ flag_rule name.now }
    ensures own { result.global ≡ false }
{
    Arg::new(alloc, name).long(name).action(ArgAction::SetTrue)
}

/// The option of this name, which takes a text.
fn valued<'a>(alloc: Global, name: &'a str) -> Arg<'a>
    ensures rule { rule_of result ≡ valued_rule name.now }
    ensures own { result.global ≡ false }
{
    Arg::new(alloc, name).long(name).action(ArgAction::Set)
}

/// The command: its four options, and no help.
fn noisemap<'a>(alloc: Global) -> Result<Command<'a>, AllocError>
    ensures { IfOk result (λ command. app_of command ≡ noisemap_app) }
{
    Command::new(alloc, "noisemap")
        .disable_help_flag(true)
        .arg(flag(alloc, "bands"))?
        .arg(flag(alloc, "counts"))?
        .arg(valued(alloc, "workers"))?
        .arg(valued(alloc, "make"))
}

/// Whether the words are no command line at the first look: there are none, or a bare `--` stands after the program's
/// name, which `clap` would pass over.
fn are_odd(words: &[String]) -> bool
    ensures { result ≡ are_odd_in (map string_bytes words.now) }
{
    match words {
        [] => true,
        [_, rest @ ..] => has_bare(rest),
    }
}

/// Whether one of the words is a bare `--`.
fn has_bare(words: &[String]) -> bool
    ensures { result ≡ list_any (λ word. bytes_eq (string_bytes word) (codes "--")) words.now }
{
    words.iter().any(|word| word.as_str() == "--")
}

/// The options that the words give.
pub fn matches_in<'a>(alloc: Global, words: &'a [String]) -> Result<ArgMatches<'a>, WordsFault>
    ensures { MatchesLine result (command_line_of (map string_bytes words.now)) }
{
    if are_odd(words) {
        return Err(WordsFault::Usage);
    }
    match noisemap(alloc)?.try_get_matches_from(words) {
        Ok(matches) => Ok(matches),
        Err(error) if error.kind() == ErrorKind::OutOfMemory => Err(WordsFault::NoMemory),
        Err(_) => Err(WordsFault::Usage),
    }
}
