//! Workers at a desk of numbers: what passes the gate and what is offered, which no contract says, and that they end.
ghost use Rattle.std.specs.Prelude.{◌≡◌, ◌-◌, ◌^◌, ◌<◌};
ghost use Rattle.std.specs.Option.{ForSome};

use map_io::{Gate, OpenGate};
use receiver_workers::{Desk, Ended, SeatCall, Taken, with_workers, work};
use std::process::Abort;
use std::sync::Wait;
use std::sync::atomic::Ordering::SeqCst;
use std::sync::atomic::{AtomicBool, AtomicU64};
use std::test::*;
use std::thread;

// Hands out the numbers below `jobs` in their order, and counts and adds up what is offered. The two `unsolved` ones are
// handed back. It is finished once it is said to be, or after so many waits.
#[derive(Drop)]
struct Numbers {
    jobs: u64,
    unsolved: [u32; 2],
    patience: u64,
    next: AtomicU64,
    offers: AtomicU64,
    sum: AtomicU64,
    waits: AtomicU64,
    finished: AtomicBool,
}

// A seat that owes one job at most.
#[derive(Drop)]
struct Clerk {
    owed: Option<u32>,
    backs: u64,
    last: Option<SeatCall<u32, u64>>,
    ghost room: { ForSome owed (λ _. backs < 2 ^ 64 - 1) },
}

// A job that was handed back.
#[derive(Drop)]
struct Unsolved {
    job: u32,
}

impl Desk for Numbers {
    ghost use Rattle.std.specs.Prelude.{◌≡◌, ◌*◌, ◌≤◌, [], List};
    ghost use Rattle.std.specs.List.{cons_option};
    ghost use Rattle.std.proofs.Common.{rules};

    type Seat = Clerk;

    type Job = u32;

    type Answer = u64;

    type Back = Unsolved;

    ghost fits = { λ desk seat. Unit {0} };

    ghost owed = { λ seat. cons_option seat.owed [] };

    ghost backs = { λ seat. seat.backs };

    ghost last = { λ seat. seat.last };

    ghost of = { λ back. back.job };

    ghost answers = { λ job answer. answer ≡ job * 3 };

    ghost follows = { λ before after. before.backs ≤ after.backs };

    fn take<R: Wait>(&self, _rt: &R, seat: &mut Clerk) -> Taken<u32> {
        match seat.owed {
            Some(_) => {
                seat.last = Some(SeatCall::Take(Taken::Idle));
                Taken::Idle
            }
            None => self.hand_out(seat),
        }
    }

    fn solve(&self, job: u32) -> Result<u64, Unsolved> {
        if self.unsolved.contains(&job) {
            return Err(Unsolved { job });
        }
        Ok(u64::from(job) * 3)
    }

    fn offer<R: Wait>(&self, _rt: &R, seat: &mut Clerk, answer: u64) {
        seat.owed = None;
        seat.last = Some(SeatCall::Offer(answer));
        self.offers.fetch_add(1, SeqCst);
        self.sum.fetch_add(answer, SeqCst);
    }

    fn give_back<R: Wait>(&self, _rt: &R, seat: &mut Clerk, back: Unsolved) {
        seat.owed = None;
        seat.backs += 1;
        seat.last = Some(SeatCall::GiveBack(back.job));
    }

    fn place(&self, job: &u32) -> u32 {
        job.wrapping_add(5)
    }

    fn wait<R: Wait>(&self, _rt: &R) {
        self.waits.fetch_add(1, SeqCst);
        thread::yield_now();
    }

    ghost follows_itself = { Prim.search rules };

    ghost follows_through = { Prim.search rules };
}

impl Numbers {
    ghost use Rattle.std.specs.Prelude.{◌≡◌, Some, None, [], List};
    ghost use Rattle.std.specs.List.{cons_option};
    ghost use Rattle.receiver_workers.specs.Owing.{job_in};
    ghost use Rattle.receiver_workers.specs.declared.calls.SeatCall.{SeatCall};

    fn new(jobs: u64, unsolved: [u32; 2], patience: u64) -> Numbers {
        Numbers {
            jobs,
            unsolved,
            patience,
            next: AtomicU64::new(0),
            offers: AtomicU64::new(0),
            sum: AtomicU64::new(0),
            waits: AtomicU64::new(0),
            finished: AtomicBool::new(false),
        }
    }

    // The next job, or why there is none.
    fn next(&self) -> Taken<u32> {
        let next = self.next.fetch_add(1, SeqCst);
        if next < self.jobs {
            return u32::try_from(next).map_or(Taken::Idle, Taken::Job);
        }
        if self.finished.load(SeqCst) || self.waits.load(SeqCst) >= self.patience {
            return Taken::Finished;
        }
        Taken::Idle
    }

    // What a seat takes that owes nothing.
    fn hand_out(&self, seat: &mut Clerk) -> Taken<u32>
        requires { seat.old.owed ≡ None }
        ensures owed { cons_option seat.new.owed [] ≡ job_in result }
        ensures last { seat.new.last ≡ Some (SeatCall.Take result) }
        ensures backs { seat.new.backs ≡ seat.old.backs }
    {
        if seat.backs == u64::MAX {
            seat.last = Some(SeatCall::Take(Taken::Idle));
            return Taken::Idle;
        }
        match self.next() {
            Taken::Job(job) => {
                seat.owed = Some(job);
                seat.last = Some(SeatCall::Take(Taken::Job(job)));
                Taken::Job(job)
            }
            Taken::Idle => {
                seat.last = Some(SeatCall::Take(Taken::Idle));
                Taken::Idle
            }
            Taken::Finished => {
                seat.last = Some(SeatCall::Take(Taken::Finished));
                Taken::Finished
            }
        }
    }
}

fn new_clerk() -> Clerk {
    Clerk {
        owed: None,
        backs: 0,
        last: None,
    }
}

// Notes who passed with which place, three digits each.
#[derive(Drop)]
struct Log {
    passes: AtomicU64,
}

impl Gate for Log {
    fn pass(&self, worker: u32, row: u32) {
        let pass = u64::from(worker)
            .wrapping_mul(100)
            .wrapping_add(u64::from(row));
        let before = self.passes.load(SeqCst);
        self.passes
            .store(before.wrapping_mul(1000).wrapping_add(pass), SeqCst);
    }
}

// Why the worker 7 ended at a desk of three jobs, one of which may be unsolved; its passes, the sum of what it
// offered, its waits, and how many jobs it gave back.
fn worked<R: Wait>(rt: &R, unsolved: u32) -> (Ended, [u64; 4]) {
    let desk = Numbers::new(3, [unsolved; 2], 1);
    let gate = Log {
        passes: AtomicU64::new(0),
    };
    let mut seat = new_clerk();
    let ended = work(rt, &desk, &mut seat, &gate, 7);
    let passes = gate.passes.load(SeqCst);
    let (sum, waits) = (desk.sum.load(SeqCst), desk.waits.load(SeqCst));
    (ended, [passes, sum, waits, seat.backs])
}

#[test]
fn a_worker_passes_the_gate_with_its_number_and_each_place(rt: HostRuntime) {
    let table = [
        (9, (Ended::Stopped, [705_706_707, 9, 1, 0])),
        (2, (Ended::NoMemory, [705_706_707, 3, 0, 1])),
        (1, (Ended::NoMemory, [705_706, 0, 0, 1])),
    ];
    for (unsolved, expected) in table {
        assert_eq!(rt; worked(&rt, unsolved), expected, "{unsolved}");
    }
}

// Holds the workers 1 and 2 until both have come, for so many turns at most.
#[derive(Drop)]
struct Meeting {
    arrived: AtomicU64,
}

const TURNS: u32 = 10_000_000;

impl Gate for Meeting {
    fn pass(&self, worker: u32, _row: u32) {
        self.arrived.fetch_or(u64::from(worker), SeqCst);
        for _ in 0..TURNS {
            if self.arrived.load(SeqCst) == 3 {
                return;
            }
            thread::yield_now();
        }
    }
}

// How many of these seats were told last that the desk is finished.
fn finished(seats: &[Clerk]) -> usize {
    seats
        .iter()
        .filter(|seat| matches!(seat.last, Some(SeatCall::Take(Taken::Finished))))
        .count()
}

#[test]
fn two_workers_solve_beside_the_body(rt: HostRuntime) -> Result<(), Fail> {
    let desk = Numbers::new(5, [9; 2], u64::MAX);
    let gate = Meeting {
        arrived: AtomicU64::new(0),
    };
    let calls = AtomicU64::new(0);
    let mut seats = [new_clerk(), new_clerk()];
    let sum = with_workers(
        &rt,
        &desk,
        &gate,
        &mut seats,
        &mut || {
            calls.fetch_add(1, SeqCst);
            for _ in 0..TURNS {
                if desk.sum.load(SeqCst) == 30 {
                    break;
                }
                thread::yield_now();
            }
            desk.finished.store(true, SeqCst);
            desk.sum.load(SeqCst)
        },
    );
    assert_eq!(rt;
        (sum, calls.load(SeqCst), gate.arrived.load(SeqCst)),
        (30, 1, 3)
    );
    assert_eq!(rt; finished(&seats), 2);
    Ok(())
}

// How many of these seats were left behind the give-back of this job.
fn given_back(seats: &[Clerk], job: u32) -> usize {
    seats
        .iter()
        .filter(|seat| matches!(seat.last, Some(SeatCall::GiveBack(back)) if back == job))
        .count()
}

fn owe_nothing(seats: &[Clerk]) -> bool {
    seats.iter().all(|seat| seat.owed.is_none())
}

// Asserts that each of the two unsolved jobs was given back, and the others were solved by the worker that was left.
fn two_are_left(rt: &impl Abort, desk: &Numbers, seats: &[Clerk]) {
    assert_eq!(rt; (desk.offers.load(SeqCst), desk.sum.load(SeqCst)), (4, 24));
    assert_eq!(rt; (given_back(seats, 2), given_back(seats, 5)), (1, 1));
    assert_eq!(rt; finished(seats), 1);
    assert!(rt; owe_nothing(seats));
}

#[test]
fn workers_without_memory_leave_the_jobs_to_the_others(rt: HostRuntime) -> Result<(), Fail> {
    let desk = Numbers::new(6, [2, 5], 0);
    let mut seats = [new_clerk(), new_clerk(), new_clerk()];
    with_workers(&rt, &desk, &OpenGate, &mut seats, &mut || ());
    two_are_left(&rt, &desk, &seats);
    Ok(())
}
