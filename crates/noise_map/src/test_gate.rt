//! Runs whose workers wait at the gate for one another, and whose lines wait for a worker.
ghost use Rattle.std.specs.Prelude.{None};

use crate::tests::taken_of;
use map_io::{Failed, FreeSource, Gate, Source};
use std::sync::atomic::{AtomicU64, Ordering};
use std::test::Fail;

const SOURCE: &str =
    "{\"do\":\"source\",\"name\":\"s\",\"kind\":\"industry\",\"x\":0,\"y\":0,\"h\":2000,\"lw\":[null,null,null,null,10000,null,null,null]}\n";

const RECEIVER: &str = "{\"do\":\"receiver\",\"name\":\"r\",\"x\":100000,\"y\":0,\"h\":2000}\n";

const SCENE: &str =
    r#"{"do":"source","name":"s","kind":"industry","x":0,"y":0,"h":2000,"lw":[null,null,null,null,10000,null,null,null]}
{"do":"receiver","name":"r","x":100000,"y":0,"h":2000}
{"do":"receiver","name":"q","x":100000,"y":0,"h":2000}
{"do":"receiver","name":"p","x":100000,"y":0,"h":2000}
"#;

const SETTLE: &str = "{\"do\":\"settle\"}\n";

const SETTLED: &str =
    "settle,4,3,,,,\nrow,4,r,current,,51.62,51.64\nrow,4,q,current,,51.62,51.64\nrow,4,p,current,,51.62,51.64\n";

// How often one looks whether another has come.
const TURNS: u32 = 500_000_000;

// Waits for another, and notes where it hasn't come within many turns.
fn wait_for(other: &AtomicU64, missed: &AtomicU64) {
    for _ in 0..TURNS {
        if other.load(Ordering::SeqCst) > 0 {
            return;
        }
    }
    missed.store(1, Ordering::SeqCst);
}

// A source that gives a source, a receiver and a settle, one a read. Before the settle it waits until a worker has come.
#[derive(Drop)]
struct SlowSource<'a> {
    reads: u64,
    worker: &'a AtomicU64,
    missed: &'a AtomicU64,
}

impl Source for SlowSource<'_> {
    ghost left = { λ _. None };

    ghost faults = { λ _. 0 };

    fn read(&mut self, buf: &mut [u8]) -> Result<usize, Failed> {
        let line = match self.reads {
            0 => SOURCE,
            1 => RECEIVER,
            2 => SETTLE,
            _ => return Ok(0),
        };
        if self.reads == 2 {
            wait_for(self.worker, self.missed);
        }
        self.reads += 1;
        let count = line.len().min(buf.len());
        buf[..count].copy_from_slice(&line.as_bytes()[..count]);
        Ok(count)
    }
}

// A gate that notes who has arrived. Two workers wait there for one another, and the editor for both.
#[derive(Drop)]
struct Meeting<'a> {
    first: &'a AtomicU64,
    second: &'a AtomicU64,
    missed: &'a AtomicU64,
}

impl Gate for Meeting<'_> {
    fn pass(&self, number: u32, _place: u32) {
        if number == 1 {
            self.first.store(1, Ordering::SeqCst);
        }
        if number == 2 {
            self.second.store(1, Ordering::SeqCst);
        }
        if number != 1 {
            wait_for(self.first, self.missed);
        }
        if number != 2 {
            wait_for(self.second, self.missed);
        }
    }
}

// How often a worker looks about that is held back.
const HELD: u32 = 10_000_000;

// A gate where the editor and a worker wait for one another, and which holds the worker back then.
#[derive(Drop)]
struct Holding<'a> {
    worker: &'a AtomicU64,
    editor: &'a AtomicU64,
    missed: &'a AtomicU64,
}

impl Gate for Holding<'_> {
    fn pass(&self, number: u32, _place: u32) {
        if number == 0 {
            self.editor.store(1, Ordering::SeqCst);
            wait_for(self.worker, self.missed);
            return;
        }
        self.worker.store(1, Ordering::SeqCst);
        wait_for(self.editor, self.missed);
        for _ in 0..HELD {
            self.editor.fetch_add(1, Ordering::SeqCst);
        }
    }
}

// A gate that notes when the first worker has passed.
#[derive(Drop)]
struct Noting<'a> {
    first: &'a AtomicU64,
}

impl Gate for Noting<'_> {
    fn pass(&self, number: u32, _place: u32) {
        if number == 1 {
            self.first.store(1, Ordering::SeqCst);
        }
    }
}

// A gate that counts those who pass it, by number and by place: each has a digit of its own.
#[derive(Drop)]
struct Counting<'a> {
    numbers: &'a AtomicU64,
    places: &'a AtomicU64,
}

impl Gate for Counting<'_> {
    fn pass(&self, number: u32, place: u32) {
        self.numbers.fetch_add(digit(number), Ordering::SeqCst);
        self.places.fetch_add(digit(place), Ordering::SeqCst);
    }
}

// One, in the hexadecimal digit of this number.
fn digit(number: u32) -> u64 {
    match number {
        0 => 0x1,
        1 => 0x10,
        2 => 0x100,
        _ => 0x1000,
    }
}

#[test]
fn two_workers_meet_at_the_gate(rt: HostRuntime) -> Result<(), Fail> {
    let alloc = rt.alloc();
    let (first, second, missed) = (AtomicU64::new(0), AtomicU64::new(0), AtomicU64::new(0));
    let input = format!(in alloc; "{SCENE}{SETTLE}")?;
    let mut source = FreeSource::new(input.as_bytes().to_vec(alloc)?);
    let gate = Meeting {
        first: &first,
        second: &second,
        missed: &missed,
    };
    let (report, rows) = taken_of(&rt, alloc, &["--workers=2"], &mut source, 0, &gate)?;
    assert_eq!(rt; report.status.exit_code(), 0);
    assert_eq!(rt; rows.as_slice(), SETTLED.as_bytes());
    let came = (first.load(Ordering::SeqCst), second.load(Ordering::SeqCst));
    assert_eq!(rt; (came, missed.load(Ordering::SeqCst)), ((1, 1), 0));
    Ok(())
}

#[test]
fn a_settle_waits_for_a_worker_that_is_held_back(rt: HostRuntime) -> Result<(), Fail> {
    let alloc = rt.alloc();
    let (worker, editor, missed) = (AtomicU64::new(0), AtomicU64::new(0), AtomicU64::new(0));
    let input = format!(in alloc; "{SCENE}{SETTLE}")?;
    let mut source = FreeSource::new(input.as_bytes().to_vec(alloc)?);
    let gate = Holding {
        worker: &worker,
        editor: &editor,
        missed: &missed,
    };
    let (report, rows) = taken_of(&rt, alloc, &["--workers=1"], &mut source, 0, &gate)?;
    assert_eq!(rt; report.status.exit_code(), 0);
    assert_eq!(rt; rows.as_slice(), SETTLED.as_bytes());
    assert_eq!(rt; missed.load(Ordering::SeqCst), 0);
    Ok(())
}

#[test]
fn a_worker_solves_before_the_settle_is_read(rt: HostRuntime) -> Result<(), Fail> {
    let (first, missed) = (AtomicU64::new(0), AtomicU64::new(0));
    let mut source = SlowSource {
        reads: 0,
        worker: &first,
        missed: &missed,
    };
    let gate = Noting { first: &first };
    let (report, rows) = taken_of(&rt, rt.alloc(), &["--workers=1"], &mut source, 0, &gate)?;
    assert_eq!(rt; report.status.exit_code(), 0);
    assert_eq!(rt;
        rows.as_slice(),
        b"settle,2,1,,,,\nrow,2,r,current,,51.62,51.64\n".as_slice()
    );
    assert_eq!(rt;
        (first.load(Ordering::SeqCst), missed.load(Ordering::SeqCst)),
        (1, 0)
    );
    Ok(())
}

#[test]
fn the_gate_is_told_who_passes_with_which_row(rt: HostRuntime) -> Result<(), Fail> {
    let alloc = rt.alloc();
    let (numbers, places) = (AtomicU64::new(0), AtomicU64::new(0));
    let input = format!(in alloc; "{SCENE}{SETTLE}")?;
    let mut source = FreeSource::new(input.as_bytes().to_vec(alloc)?);
    let gate = Counting {
        numbers: &numbers,
        places: &places,
    };
    let (_, rows) = taken_of(&rt, alloc, &[], &mut source, 0, &gate)?;
    assert_eq!(rt; rows.as_slice(), SETTLED.as_bytes());
    let passed = (
        numbers.load(Ordering::SeqCst),
        places.load(Ordering::SeqCst),
    );
    assert_eq!(rt; passed, (0x3, 0x111));
    Ok(())
}
