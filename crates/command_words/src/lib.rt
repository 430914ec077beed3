//! The words of the command line, and what they say.
#![tactic(auto)]

mod line;
mod matching;
mod values;

pub use line::{CommandLine, WordsFault, command_line};
