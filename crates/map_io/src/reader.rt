//! The lines of an input.
ghost use Rattle.std.specs.Prelude.{◌≡◌, ◌≢◌, ◌<◌, ◌≤◌, ◌++◌, [], length, take, vec_capacity, position, ◌==◌, Contains, IfOk};
ghost use Rattle.std.specs.Io.KnownBytes.{ReadConsumes};
ghost use Rattle.map_io.specs.Causes.{HasCause, Rose};
ghost use Rattle.map_io.specs.Reading.{fresh, ahead, bytes_read, answer_of, line_limit, input_limit, read_size, NextGives};
ghost use Rattle.map_io.specs.LinesAhead.{IfBothKnown, TakesLine};
ghost use Rattle.map_io.specs.inner.Steps.{Scans, Fills, Sizes};

use crate::{Failed, NoMemory, Source};
use std::alloc::Global;
use std::marker::Model;

/// How many bytes a line may have, without its line feed.
pub const LINE_LIMIT: u32 = 65_536;

/// How many bytes of an input are read.
pub const INPUT_LIMIT: u32 = 67_108_864;

/// How many bytes are asked of a source at once.
const READ_SIZE: u32 = 8_192;

/// The next line of an input, or why there is none.
#[derive(Clone, Copy, Debug, PartialEq, Eq)]
pub enum Next {
    /// A line of that many bytes, without its line feed.
    Line(u32),
    /// The input has ended, and all its lines were handed out.
    End,
    /// A line has more than 65,536 bytes. It was passed over.
    LongLine,
    /// The source failed.
    ReadFault,
    /// 67,108,864 bytes were read, and one more came.
    InputLimit,
}

/// Whether a reader goes on, and else what stopped it.
#[derive(Clone, Copy, Debug, PartialEq, Eq)]
pub enum Stop {
    /// It goes on.
    Going,
    /// The input has ended.
    AtEnd,
    /// The source has failed.
    AfterFault,
    /// More bytes came than the limit of the input has.
    AtLimit,
}

/// Reads an input line by line. Contracts see the line that was handed out last, the bytes that are held, how many bytes
/// were passed, and whether the reader is stopped. Once stopped it stays so.
#[derive(Drop)]
pub struct LineReader {
    line: Vec<u8>,
    buffer: Vec<u8>,
    start: usize,
    end: usize,
    passed: u32,
    stop: Stop,
}

impl Model for LineReader {
    ghost use Rattle.std.specs.Prelude.{slice_range};
    ghost use Rattle.map_io.specs.Reading.{Reading};

    ghost Value = { Reading };

    ghost use Rattle.map_io.specs.inner.Buffers.{IsSound};

    ghost view = { λ r. record {
      line = r.line.items;
      pending = slice_range r.buffer.items r.start r.end;
      passed = r.passed;
      stop = r.stop;
    } };

    ghost invariant = { IsSound };
}

impl LineReader {
    /// A reader that has read nothing. It takes the memory for its longest line and for its reads, once.
    pub fn new(alloc: Global) -> Result<LineReader, NoMemory>
        ensures { IfOk result (λ reader. reader ≡ fresh) }
    {
        let line = Vec::with_capacity(alloc, LINE_LIMIT as usize)?;
        let buffer = vec![in alloc; 0; READ_SIZE as usize]?;
        Ok(LineReader {
            line,
            buffer,
            start: 0,
            end: 0,
            passed: 0,
            stop: Stop::Going,
        })
    }

    /// The bytes of the line that was handed out last, without its line feed.
    pub fn line(&self) -> &[u8]
        ensures { result.now ≡ self.now.line }
    {
        &self.line
    }

    /// Goes on to the end of the next line, and answers its size in bytes, or why it hands none out. A line ends with a
    /// line feed (byte 10) or with the end of the input, where an empty rest is no line. Each read asks for at most
    /// 8,192 bytes and for no more than the limit leaves; with all of the limit read, one byte is asked for, and it is
    /// the answer `InputLimit` where it comes. A line that a fault or the limit breaks off is never handed out.
    pub fn next<S: Source>(&mut self, source: &mut S) -> Next
        ensures going { self.old.stop ≡ Stop.Going
            → NextGives result self.old self.new (S.left source.old) (S.left source.new) }

        // So where the source tells, an answer takes a line off those of the bytes ahead, however the reads cut them.
        ensures lines { self.old.stop ≡ Stop.Going →
            IfBothKnown (ahead self.old (S.left source.old)) (ahead self.new (S.left source.new))
            (TakesLine result self.new.line) }

        // A stopped reader answers the same, and neither reads nor changes.
        ensures stopped { self.old.stop ≢ Stop.Going →
            (result ≡ answer_of self.old.stop) × (self.new ≡ self.old) × (source.new ≡ source.old) }

        // It doesn't read while it holds a line feed, and it holds no more than one read brings.
        ensures held { Contains self.old.pending 10 → source.new ≡ source.old }
        ensures few { (length self.old.pending ≤ read_size) × (length self.new.pending ≤ read_size) }

        // A fault is answered exactly where the source has failed, in this call or in the one that stopped the reader.
        ensures later { S.faults source.old ≤ S.faults source.new }
        ensures well { result ≢ Next.ReadFault → S.faults source.new ≡ S.faults source.old }
        ensures fault { result ≡ Next.ReadFault → self.old.stop ≢ Stop.AfterFault
            → Rose (S.faults source.old) (S.faults source.new) }

        ensures within { (bytes_read self.old ≤ input_limit) × (bytes_read self.new ≤ input_limit) }
    {
        match self.stop {
            Stop::Going => self.next_line(source),
            Stop::AtEnd => Next::End,
            Stop::AfterFault => Next::ReadFault,
            Stop::AtLimit => Next::InputLimit,
        }
    }

    // The next line of a reader that isn't stopped.
    fn next_line<S: Source>(&mut self, source: &mut S) -> Next
        requires { self.old.stop ≡ Stop.Going }
        ensures gives { NextGives result self.old self.new (S.left source.old) (S.left source.new) }
        ensures held { Contains self.old.pending 10 → source.new ≡ source.old }
        ensures few { length self.new.pending ≤ read_size }
        ensures later { S.faults source.old ≤ S.faults source.new }
        ensures well { result ≢ Next.ReadFault → S.faults source.new ≡ S.faults source.old }
        ensures fault { result ≡ Next.ReadFault → Rose (S.faults source.old) (S.faults source.new) }
        ensures within { bytes_read self.new ≤ input_limit }
    {
        let began = self.begin();
        loop {
            if self.scan() {
                return sized(self.passed - began - 1);
            }
            self.fill(source);
            match self.stop {
                Stop::Going => {}
                Stop::AtEnd if self.passed == began => return Next::End,
                Stop::AtEnd => return sized(self.passed - began),
                Stop::AfterFault => return Next::ReadFault,
                Stop::AtLimit => return Next::InputLimit,
            }
        }
    }

    // Empties the line, and answers how many bytes were passed before it.
    fn begin(&mut self) -> u32
        ensures passed { result ≡ self.old.passed }
        ensures empty { self.new ≡ record self.old { line = [] } }
        ensures within { bytes_read self.new ≤ input_limit }
    {
        self.line.clear();
        self.passed
    }

    // Moves bytes that are held to the line, up to a line feed, and answers whether there was one. It is passed too.
    fn scan(&mut self) -> bool
        ensures { Scans result self.old self.new }
    {
        let held = &self.buffer[self.start..self.end];
        match line_feed(held) {
            Some(size) => {
                gather(&mut self.line, &held[..size]);
                self.start += size + 1;
                self.passed += size as u32 + 1;
                true
            }
            None => {
                gather(&mut self.line, held);
                self.passed += held.len() as u32;
                self.start = self.end;
                false
            }
        }
    }

    // Reads where nothing is held. Past the limit it asks for one byte, to see whether there is one.
    fn fill<S: Source>(&mut self, source: &mut S)
        requires { self.old.pending ≡ [] }
        ensures fills { Fills self.old self.new (S.left source.old) (S.left source.new) }
        ensures later { S.faults source.old ≤ S.faults source.new }
        ensures well { self.new.stop ≢ Stop.AfterFault → S.faults source.new ≡ S.faults source.old }
        ensures fault { self.new.stop ≡ Stop.AfterFault → Rose (S.faults source.old) (S.faults source.new) }
    {
        let room = INPUT_LIMIT - self.passed;
        let want = room.min(READ_SIZE).max(1);
        match read_front(source, &mut self.buffer, want as usize) {
            Ok(0) => self.stop = Stop::AtEnd,
            Ok(_) if room == 0 => self.stop = Stop::AtLimit,
            Ok(count) => {
                self.start = 0;
                self.end = count;
                self.stop = Stop::Going;
            }
            Err(Failed) => self.stop = Stop::AfterFault,
        }
    }
}

// The answer for a line of this size.
fn sized(size: u32) -> Next
    ensures { Sizes size result }
{
    if size <= LINE_LIMIT {
        Next::Line(size)
    } else {
        Next::LongLine
    }
}

// Where the first line feed stands.
fn line_feed(bytes: &[u8]) -> Option<usize>
    ensures { result ≡ position (λ b. b == 10) bytes.now }
{
    bytes.iter().position(|b| *b == b'\n')
}

// Adds a piece to a line, as far as there is room.
fn gather(line: &mut Vec<u8>, piece: &[u8])
    requires short { length line.old.items ≤ line_limit }
    requires room { line_limit ≤ vec_capacity line.old }
    ensures items { line.new.items ≡ take line_limit (line.old.items ++ piece.now) }
    ensures short { length line.new.items ≤ line_limit }
    ensures room { line_limit ≤ vec_capacity line.new }
{
    let room = LINE_LIMIT as usize - line.len();
    let _ = line.extend_from_slice(&piece[..room.min(piece.len())]);
}

// Reads into the front of a buffer, at most this many bytes.
fn read_front<S: Source>(source: &mut S, buffer: &mut [u8], want: usize) -> Result<usize, Failed>
    requires some { 0 < want }
    requires room { want ≤ length buffer.old }
    ensures bound { IfOk result (λ n. n ≤ want) }
    ensures bytes { ReadConsumes (S.left source.old) (S.left source.new) result buffer.new }
    ensures cause { HasCause (S.faults source.old) (S.faults source.new) result }
{
    source.read(&mut buffer[..want])
}
