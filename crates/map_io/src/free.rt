//! A source and a sink that never fail.
ghost use Rattle.std.specs.Prelude.{◌≡◌, ◌+◌, ◌-◌, ◌^◌, [], min, length, Some, None, Ok};
ghost use Rattle.std.specs.Io.{ReadsAtMost, WritesAtMost};
ghost use Rattle.std.specs.Io.KnownBytes.{ReadConsumes, WriteAppends};
ghost use Rattle.map_io.specs.Causes.{HasCause};
ghost use Rattle.map_io.specs.Putting.{TakesSome};

use crate::giving::give;
use crate::{Failed, Sink, Source};
use std::marker::Model;

/// A source of bytes in memory that never fails. Contracts see it as the bytes that are left.
#[derive(Drop)]
pub struct FreeSource {
    bytes: Vec<u8>,
    given: usize,
}

impl Model for FreeSource {
    ghost use Rattle.std.specs.Prelude.{◌≤◌, List, ℕ, drop, length};

    ghost Value = { List ℕ };

    ghost view = { λ s. drop s.given s.bytes.items };

    ghost invariant = { λ s. s.given ≤ length s.bytes.items };
}

impl FreeSource {
    /// A source of these bytes.
    pub fn new(bytes: Vec<u8>) -> FreeSource
        ensures { result ≡ bytes.items }
    {
        FreeSource { bytes, given: 0 }
    }
}

impl Source for FreeSource {
    ghost left = { λ s. Some s };

    ghost faults = { λ s. 0 };

    fn read(&mut self, buf: &mut [u8]) -> Result<usize, Failed>
        ensures bound { ReadsAtMost result buf.new }
        ensures bytes { ReadConsumes (Some self.old) (Some self.new) result buf.new }
        ensures cause { HasCause 0 0 result }

        // It gives as much as there is room for.
        ensures all { result ≡ Ok (min (length buf.old) (length self.old)) }
    {
        let count = give(&self.bytes[self.given..], buf.len(), buf);
        self.given += count;
        Ok(count)
    }
}

/// A sink that takes everything and keeps nothing. Contracts see it as the number of bytes that it has taken, which
/// stands still at the last value of 64 bits.
#[derive(Drop)]
pub struct FreeSink {
    count: u64,
}

impl Model for FreeSink {
    ghost use Rattle.std.specs.Prelude.{ℕ};

    ghost Value = { ℕ };

    ghost view = { λ s. s.count };
}

impl FreeSink {
    /// A sink that has taken nothing.
    pub fn new() -> FreeSink
        ensures { result ≡ 0 }
    {
        FreeSink { count: 0 }
    }

    /// How many bytes it has taken.
    pub fn count(&self) -> u64
        ensures { result ≡ self.now }
    {
        self.count
    }
}

impl Sink for FreeSink {
    ghost taken = { λ s. None };

    ghost faults = { λ s. 0 };

    fn write(&mut self, piece: &[u8]) -> Result<usize, Failed>
        ensures bound { WritesAtMost result piece.now }
        ensures some { TakesSome result piece.now }
        ensures bytes { WriteAppends None None result piece.now }
        ensures cause { HasCause 0 0 result }

        // It takes the whole piece.
        ensures all { result ≡ Ok (length piece.now) }
        ensures counted { self.new ≡ min (self.old + length piece.now) (2 ^ 64 - 1) }
    {
        self.count = self.count.saturating_add(piece.len() as u64);
        Ok(piece.len())
    }
}
