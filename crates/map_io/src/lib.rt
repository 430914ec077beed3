//! The outside of the noise mapper: where bytes come from, where they go, and the lines of an input.
//!
//! A source and a sink may fail, and each counts its faults. So code that is generic over them answers a fault only
//! where the count rose, since it can't raise the count by itself.
#![tactic(auto)]

mod errors;
mod free;
mod gate;
mod giving;
mod memory;
mod reader;
mod sink;
mod source;
mod standard;

pub use errors::{Failed, NoMemory};
pub use free::{FreeSink, FreeSource};
pub use gate::{Gate, OpenGate};
pub use memory::{MemSink, MemSource};
pub use reader::{INPUT_LIMIT, LINE_LIMIT, LineReader, Next, Stop};
pub use sink::{Sink, put_all};
pub use source::Source;
pub use standard::{StdSink, StdSource};

#[cfg(test)]
mod tests;
