//! A command line read from its words.
ghost use Rattle.std.specs.Prelude.{◌≡◌, map, string_bytes};
ghost use Rattle.command_words.specs.Answers.{ReadsUnlessMemory};
ghost use Rattle.command_words.specs.Words.{command_line_of};
ghost use Rattle.command_words.specs.declared.line.WordsFault.TheVariants as faults;

use crate::matching::matches_in;
use crate::values::{number_in, workers_in};
use std::alloc::{AllocError, Global};

/// What a command line asks for.
#[derive(Clone, Copy, Debug, PartialEq, Eq)]
pub struct CommandLine {
    /// `--bands`: the rows of bands.
    pub bands: bool,
    /// `--counts`: the rows of counts.
    pub counts: bool,
    /// `--workers N`: the number of workers, 0 to 16, and 0 where it isn't given.
    pub workers: u8,
    /// `--make N`: the seed of the site to make, 0 to 999,999, where one is to be made.
    pub make: Option<u32>,
}

/// Why words give no command line.
#[derive(Clone, Copy, Debug, PartialEq, Eq)]
pub enum WordsFault {
    /// They are none.
    Usage,
    /// There was no memory to read them.
    NoMemory,
}

impl From<AllocError> for WordsFault {
    ghost from_gives = { λ _ fault. fault ≡ faults.NoMemory };

    fn from(_: AllocError) -> Self {
        WordsFault::NoMemory
    }
}

/// What the words say, the first of which is the program's name and isn't looked at: `--bands`, `--counts`,
/// `--workers N` and `--make N`, in any order and each at most once, where `N` is one to six digits, in a word of its
/// own or after a sign as in `--make=7`. Usage is answered exactly where they are no command line. Memory is taken
/// for reading them and given back.
pub fn command_line(alloc: Global, words: &[String]) -> Result<CommandLine, WordsFault>
    ensures { ReadsUnlessMemory result (command_line_of (map string_bytes words.now)) }
{
    let matches = matches_in(alloc, words)?;
    let workers = match matches.get_str("workers") {
        Some(text) => workers_in(text).ok_or(WordsFault::Usage)?,
        None => 0,
    };
    let make = match matches.get_str("make") {
        Some(text) => Some(number_in(text).ok_or(WordsFault::Usage)?),
        None => None,
    };
    Ok(CommandLine {
        bands: matches.get_flag("bands"),
        counts: matches.get_flag("counts"),
        workers,
        make,
    })
}
