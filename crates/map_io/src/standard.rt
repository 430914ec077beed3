//! Readers and writers of the standard library as a source and a sink: the edge to standard input and output.
ghost use Rattle.std.specs.Prelude.{◌≡◌};

use crate::errors::counted;
use crate::{Failed, Sink, Source};
use std::io::{Read, Write};

/// A source over a reader of the standard library, as standard input. Each error is a fault, and none is tried again,
/// not even an interruption. Of what is left it says what the reader says: nothing, at standard input.
#[derive(Drop)]
pub struct StdSource<R> {
    reader: R,
    pub(crate) faults: u64,
}

impl<R: Read> StdSource<R> {
    /// A source over this reader, with no fault counted.
    pub fn new(reader: R) -> StdSource<R>
        ensures left { ⟦<StdSource<R> as Source>⟧.left result ≡ R.remaining reader }
        ensures faults { ⟦<StdSource<R> as Source>⟧.faults result ≡ 0 }
    {
        StdSource { reader, faults: 0 }
    }
}

impl<R: Read> Source for StdSource<R> {
    ghost left = { λ s. R.remaining s.reader };

    ghost faults = { λ s. s.faults };

    fn read(&mut self, buf: &mut [u8]) -> Result<usize, Failed> {
        match self.reader.read(buf) {
            Ok(count) => Ok(count),
            Err(_) => Err(counted(&mut self.faults)),
        }
    }
}

/// A sink over a writer of the standard library, as standard output. Each write goes straight to the writer, so hand
/// in one that holds nothing back. Each error is a fault, and none is tried again. Of what was taken it says what the
/// writer says: nothing, at standard output.
#[derive(Drop)]
pub struct StdSink<W> {
    writer: W,
    pub(crate) faults: u64,
}

impl<W: Write> StdSink<W> {
    /// A sink over this writer, with no fault counted.
    pub fn new(writer: W) -> StdSink<W>
        ensures taken { ⟦<StdSink<W> as Sink>⟧.taken result ≡ W.contents writer }
        ensures faults { ⟦<StdSink<W> as Sink>⟧.faults result ≡ 0 }
    {
        StdSink { writer, faults: 0 }
    }
}

impl<W: Write> Sink for StdSink<W> {
    ghost taken = { λ s. W.contents s.writer };

    ghost faults = { λ s. s.faults };

    fn write(&mut self, piece: &[u8]) -> Result<usize, Failed> {
        match self.writer.write(piece) {
            Ok(count) if count > 0 || piece.is_empty() => Ok(count),
            // To take nothing of a piece that has a byte is a failure.
            _ => Err(counted(&mut self.faults)),
        }
    }
}
