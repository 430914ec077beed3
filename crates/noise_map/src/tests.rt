//! Runs over sources and sinks in memory. The rows expected are those of an independent calculation.
ghost use Rattle.std.specs.Prelude.{None};

use crate::run::run;
use crate::run::status::Report;
use map_io::{Failed, FreeSink, FreeSource, Gate, MemSink, MemSource, OpenGate, Sink, Source};
use std::alloc::Global;
use std::process::Abort;
use std::sync::Wait;
use std::sync::atomic::{AtomicU64, Ordering};
use std::test::Fail;
use std::thread::Threads;

pub(crate) const FAN: &str =
    r#"{"do":"source","name":"s","kind":"industry","x":0,"y":0,"h":2000,"lw":[null,null,null,null,10000,null,null,null]}"#;

const HOUSE: &str = r#"{"do":"receiver","name":"r","x":100000,"y":0,"h":2000}"#;

const SETTLE: &str = r#"{"do":"settle"}"#;

const SETTLED: &str = "settle,2,1,,,,\nrow,2,r,current,,51.62,51.64\n";

// The exit status of a run, and how many lines were done.
pub(crate) fn ended(report: &Report) -> (u8, u64) {
    (report.status.exit_code(), report.lines)
}

// What a run with these options over a source answers, and what its sink has taken, which fails at the call of this number.
pub(crate) fn taken_of<R: Threads + Wait + Sync, S: Source + Send, G: Gate + Sync>(
    rt: &R,
    alloc: Global,
    options: &[&str],
    source: &mut S,
    write_fault: u32,
    gate: &G,
) -> Result<(Report, Vec<u8>), Fail> {
    let mut words = vec![in alloc; String::from_str(alloc, "noisemap")?]?;
    for option in options {
        words.push(String::from_str(alloc, option)?)?;
    }
    let mut sink = MemSink::new(vec![in alloc; write_fault]?);
    sink.reserve(alloc, 65_536)?;
    let report = run(rt, alloc, words.as_slice(), source, &mut sink, gate);
    Ok((report, sink.bytes().to_vec(alloc)?))
}

// What a run over these bytes answers, and what its sink has taken.
pub(crate) fn written<R: Threads + Wait + Sync>(
    rt: &R,
    alloc: Global,
    options: &[&str],
    input: &[u8],
    read_fault: u32,
    write_fault: u32,
) -> Result<(Report, Vec<u8>), Fail> {
    let mut source = MemSource::new(input.to_vec(alloc)?, 10, vec![in alloc; read_fault]?);
    taken_of(rt, alloc, options, &mut source, write_fault, &OpenGate)
}

#[test]
fn faults_break_a_run_off(rt: HostRuntime) -> Result<(), Fail> {
    let alloc = rt.alloc();
    let input = format!(in alloc; "{FAN}\n{HOUSE}\n{SETTLE}\n")?;
    let (report, taken) = written(&rt, alloc, &[], input.as_bytes(), 3, 0)?;
    assert_eq!(rt; ended(&report), (3, 0));
    assert!(rt; taken.is_empty());
    for (write, rows) in [(1, ""), (2, "settle,2,1,,,,\n"), (3, SETTLED)] {
        let (report, taken) = written(&rt, alloc, &[], input.as_bytes(), 0, write)?;
        let status = if write == 3 { 0 } else { 4 };
        assert_eq!(rt; ended(&report), (status, 3));
        assert_eq!(rt; taken.as_slice(), rows.as_bytes(), "write {write}");
    }
    Ok(())
}

// A sink that counts the rows that it takes.
#[derive(Drop)]
struct CountingSink<'a> {
    rows: &'a AtomicU64,
}

impl Sink for CountingSink<'_> {
    ghost taken = { λ _. None };

    ghost faults = { λ _. 0 };

    fn write(&mut self, piece: &[u8]) -> Result<usize, Failed> {
        self.rows.fetch_add(1, Ordering::SeqCst);
        Ok(piece.len())
    }
}

// A source that gives three settles of an empty scene, one a read. It fails where the row of the last isn't taken yet.
#[derive(Drop)]
struct WatchingSource<'a> {
    reads: u64,
    faults: u64,
    rows: &'a AtomicU64,
}

impl Source for WatchingSource<'_> {
    ghost left = { λ _. None };

    ghost faults = { λ s. s.faults };

    fn read(&mut self, buf: &mut [u8]) -> Result<usize, Failed> {
        if self.rows.load(Ordering::SeqCst) != self.reads {
            self.faults = self.faults.saturating_add(1);
            return Err(Failed);
        }
        if self.reads >= 3 {
            return Ok(0);
        }
        self.reads += 1;
        let line = b"{\"do\":\"settle\"}\n";
        let count = line.len().min(buf.len());
        buf[..count].copy_from_slice(&line[..count]);
        Ok(count)
    }
}

#[test]
fn rows_are_written_before_the_next_line_is_read(rt: HostRuntime) -> Result<(), Fail> {
    let alloc = rt.alloc();
    let words = vec![in alloc; String::from_str(alloc, "noisemap")?]?;
    let rows = AtomicU64::new(0);
    let mut source = WatchingSource {
        reads: 0,
        faults: 0,
        rows: &rows,
    };
    let mut sink = CountingSink { rows: &rows };
    let report = run(
        &rt,
        alloc,
        words.as_slice(),
        &mut source,
        &mut sink,
        &OpenGate,
    );
    assert_eq!(rt; ended(&report), (0, 3));
    assert_eq!(rt; rows.load(Ordering::SeqCst), 3);
    Ok(())
}

#[test]
fn no_words_are_no_command_line(rt: HostRuntime) -> Result<(), Fail> {
    let alloc = rt.alloc();
    let none: Vec<String> = Vec::new(alloc);
    let mut source = FreeSource::new(SETTLE.as_bytes().to_vec(alloc)?);
    let report = run(
        &rt,
        alloc,
        none.as_slice(),
        &mut source,
        &mut FreeSink::new(),
        &OpenGate,
    );
    assert_eq!(rt; ended(&report), (2, 0));
    Ok(())
}
