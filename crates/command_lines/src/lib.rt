//! Lines of the input read as commands: each is one JSON object (RFC 8259) whose field `do` says what is asked for.
#![tactic(auto)]

mod commands;
mod faults;
mod reading;
mod values;
mod words;

pub use commands::Command;
pub use commands::contours::ContourSpec;
pub use commands::line_sources::LineSpec;
pub use faults::LineFault;
pub use reading::command;
