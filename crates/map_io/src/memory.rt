//! Sources and sinks in memory, for tests: they fail at the calls of a list.
ghost use Rattle.std.specs.Prelude.{◌≡◌, ◌+◌, ◌≤◌, ◌||◌, [], min, max, length, Some, OnOk, OnErr, nat_lt};
ghost use Rattle.std.specs.Io.{ReadsAtMost, WritesAtMost};
ghost use Rattle.std.specs.Io.KnownBytes.{ReadConsumes, WriteAppends};
ghost use Rattle.map_io.specs.Causes.{HasCause, one_more};
ghost use Rattle.map_io.specs.Putting.{TakesSome};
ghost use Rattle.map_io.specs.Memory.{is_among, Answers};

use crate::errors::counted;
use crate::giving::give;
use crate::{Failed, NoMemory, Sink, Source};
use std::alloc::Global;
use std::marker::Model;

/// A source of bytes in memory. It gives a piece at a time, and fails at the calls of a list.
#[derive(Drop)]
pub struct MemSource {
    bytes: Vec<u8>,
    given: usize,
    piece: u32,
    fail: Vec<u32>,
    calls: u64,
    faults: u64,
}

impl Model for MemSource {
    ghost use Rattle.std.specs.Prelude.{◌≤◌, drop, length};
    ghost use Rattle.map_io.specs.Memory.{Supply, IsGiving};

    ghost Value = { Supply };

    ghost view = { λ s. record {
      left = drop s.given s.bytes.items;
      piece = s.piece;
      fail = s.fail.items;
      calls = s.calls;
      faults = s.faults;
    } };

    ghost invariant = { λ s. IsGiving s.given (length s.bytes.items) s.piece };
}

impl MemSource {
    /// A source of these bytes, which gives at most `piece` of them at a time, and fails at the calls whose numbers,
    /// counted from 1, are in `fail`.
    pub fn new(bytes: Vec<u8>, piece: u32, fail: Vec<u32>) -> MemSource
        requires { 1 ≤ piece }
        ensures { result ≡ record {
          left = bytes.items;
          piece = piece;
          fail = fail.items;
          calls = 0;
          faults = 0;
        } }
    {
        MemSource {
            bytes,
            given: 0,
            piece,
            fail,
            calls: 0,
            faults: 0,
        }
    }
}

impl Source for MemSource {
    ghost left = { λ s. Some s.left };

    ghost faults = { λ s. s.faults };

    fn read(&mut self, buf: &mut [u8]) -> Result<usize, Failed>
        ensures bound { ReadsAtMost result buf.new }
        ensures bytes { ReadConsumes (Some self.old.left) (Some self.new.left) result buf.new }
        ensures cause { HasCause self.old.faults self.new.faults result }

        // It gives as much as it may, but at the calls of the list.
        ensures answer { Answers (is_among self.old.fail (one_more self.old.calls)) result
            (min self.old.piece (min (length buf.old) (length self.old.left))) self.old.faults self.new.faults }
        ensures calls { self.new.calls ≡ one_more self.old.calls }
        ensures same { (self.new.piece ≡ self.old.piece) × (self.new.fail ≡ self.old.fail) }
    {
        self.calls = self.calls.saturating_add(1);
        if is_listed(&self.fail, self.calls) {
            return Err(counted(&mut self.faults));
        }
        let count = give(&self.bytes[self.given..], self.piece as usize, buf);
        self.given += count;
        Ok(count)
    }
}

/// A sink that keeps the bytes in memory. It fails at the calls of a list, and at a piece for which it has no room.
#[derive(Drop)]
pub struct MemSink {
    bytes: Vec<u8>,
    room: u64,
    fail: Vec<u32>,
    calls: u64,
    faults: u64,
}

impl Model for MemSink {
    ghost use Rattle.std.specs.Prelude.{◌≤◌, ◌+◌, length};
    ghost use Rattle.std.specs.Vec.{vec_capacity};
    ghost use Rattle.map_io.specs.Memory.{Store};

    ghost Value = { Store };

    ghost view = { λ s. record {
      taken = s.bytes.items;
      room = s.room;
      fail = s.fail.items;
      calls = s.calls;
      faults = s.faults;
    } };

    ghost invariant = { λ s. length s.bytes.items + s.room ≤ vec_capacity s.bytes };
}

impl MemSink {
    /// A sink that has taken nothing and has no room yet. It fails at the calls whose numbers, counted from 1, are in
    /// `fail`.
    pub fn new(fail: Vec<u32>) -> MemSink
        ensures { result ≡ record { taken = []; room = 0; fail = fail.items; calls = 0; faults = 0 } }
    {
        let alloc = *fail.allocator();
        MemSink {
            bytes: Vec::new(alloc),
            room: 0,
            fail,
            calls: 0,
            faults: 0,
        }
    }

    /// Makes room for that many more bytes, if there is less. Want of memory changes nothing.
    pub fn reserve(&mut self, alloc: Global, bytes: u64) -> Result<(), NoMemory>
        ensures ok { OnOk result (self.new ≡ record self.old { room = max self.old.room bytes }) }
        ensures err { OnErr result (self.new ≡ self.old) }
    {
        if bytes > self.room {
            let capacity = (self.bytes.len() as u64)
                .checked_add(bytes)
                .ok_or(NoMemory)?;
            let mut roomy = Vec::with_capacity(alloc, capacity as usize)?;
            roomy.extend_from_slice(&self.bytes)?;
            self.bytes = roomy;
            self.room = bytes;
        }
        Ok(())
    }

    /// The bytes taken so far.
    pub fn bytes(&self) -> &[u8]
        ensures { result.now ≡ self.now.taken }
    {
        &self.bytes
    }
}

impl Sink for MemSink {
    ghost taken = { λ s. Some s.taken };

    ghost faults = { λ s. s.faults };

    fn write(&mut self, piece: &[u8]) -> Result<usize, Failed>
        ensures bound { WritesAtMost result piece.now }
        ensures some { TakesSome result piece.now }
        ensures bytes { WriteAppends (Some self.old.taken) (Some self.new.taken) result piece.now }
        ensures cause { HasCause self.old.faults self.new.faults result }

        // It takes the whole piece, but at the calls of the list, and where it has no room.
        ensures answer { Answers
            (is_among self.old.fail (one_more self.old.calls) || nat_lt self.old.room (length piece.now))
            result (length piece.now) self.old.faults self.new.faults }
        ensures calls { self.new.calls ≡ one_more self.old.calls }
        ensures room { OnOk result (self.new.room + length piece.now ≡ self.old.room) }
        ensures same { OnErr result (self.new.room ≡ self.old.room) × (self.new.fail ≡ self.old.fail) }
    {
        self.calls = self.calls.saturating_add(1);
        let size = piece.len() as u64;
        if is_listed(&self.fail, self.calls) || size > self.room {
            return Err(counted(&mut self.faults));
        }
        let _ = self.bytes.extend_from_slice(piece);
        self.room -= size;
        Ok(piece.len())
    }
}

// Whether the call with this number is to fail.
fn is_listed(fail: &[u32], number: u64) -> bool
    ensures { result ≡ is_among fail.now number }
{
    fail.iter().any(|listed| u64::from(*listed) == number)
}
