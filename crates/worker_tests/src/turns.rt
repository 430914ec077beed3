//! A counter taken in turns, by one thread and by several.
ghost use Rattle.std.specs.Prelude.{◌≡◌, ◌+◌, IfOk, IfSome};
ghost use Rattle.std.specs.Thread.{IsSync};

use std::alloc::Global;
use std::sync::Wait;
use std::test::*;
use std::thread::{Threads, join};
use turn_lock::{Machine, NoMemory, Seat, Turn};

// One call, which adds 1 and answers the old value. The count goes round at 2^64.
#[derive(Drop)]
struct Counter {
    count: u64,
}

impl Machine for Counter {
    ghost use Rattle.std.specs.Prelude.{◌≡◌, ◌+◌, ◌%◌, ◌^◌};

    type State = u64;

    type Call = ();

    type Reply = u64;

    ghost state = { λ m. m.count };

    ghost start = { 0 };

    ghost steps = { λ before call reply after. (reply ≡ before) × (after ≡ (before + 1) % 2 ^ 64) };

    ghost can = { λ before call. Unit {0} };

    ghost may = { λ number mine call. Unit {0} };

    fn step(&mut self, _alloc: Global, _call: ()) -> u64 {
        let old = self.count;
        self.count = old.wrapping_add(1);
        old
    }

    ghost lawful = { λ history state number call run allowed. tt };
}

// What a thread is given: the struct crosses threads with no proof of its own.
#[derive(Drop)]
struct Clerk {
    seat: Seat<Counter>,
    turns: u32,
}

// The lock, which threads share.
#[derive(Drop)]
struct Office {
    lock: Turn<Counter>,
}

// Makes the clerk's turns, and gives the seat back if the replies rose.
fn work<R: Wait>(rt: &R, alloc: Global, office: &Office, clerk: Clerk) -> Option<Seat<Counter>>
    requires { clerk.seat.table ≡ office.now.lock }
    ensures { IfSome result (λ seat. (seat.table ≡ clerk.seat.table) × (seat.parts ≡ clerk.seat.parts)) }
{
    let Clerk { mut seat, turns } = clerk;
    let mut last = None;
    for _ in 0..turns {
        let reply = office.lock.turn(rt, alloc, &mut seat, ());
        if last.is_some_and(|before| reply <= before) {
            return None;
        }
        last = Some(reply);
    }
    Some(seat)
}

// Two clerks at once.
fn work_both<R: Threads + Wait + Sync>(
    rt: &R,
    alloc: Global,
    office: &Office,
    one: Clerk,
    two: Clerk,
) -> Option<Seat<Counter>>
    requires one { one.seat.table ≡ office.now.lock }
    requires two { two.seat.table ≡ office.now.lock }
    ensures { IfSome result (λ seat.
        (seat.table ≡ one.seat.table) × (seat.parts ≡ one.seat.parts + two.seat.parts)) }
{
    let (one, two) = join(
        rt,
        move || work(rt, alloc, office, one),
        move || work(rt, alloc, office, two),
    );
    let mut one = one?;
    office.lock.join(&mut one, two?);
    Some(one)
}

// Four clerks at once.
fn work_all<R: Threads + Wait + Sync>(
    rt: &R,
    alloc: Global,
    office: &Office,
    left: (Clerk, Clerk),
    right: (Clerk, Clerk),
) -> Option<Seat<Counter>>
    requires left { (left.0.seat.table ≡ office.now.lock) × (left.1.seat.table ≡ office.now.lock) }
    requires right { (right.0.seat.table ≡ office.now.lock) × (right.1.seat.table ≡ office.now.lock) }
    ensures { IfSome result (λ seat. (seat.table ≡ office.now.lock)
        × (seat.parts ≡ (left.0.seat.parts + left.1.seat.parts) + (right.0.seat.parts + right.1.seat.parts))) }
{
    let (left, right) = join(
        rt,
        move || -> Option<Seat<Counter>>
            requires { IsSync R.row × (left.0.seat.table ≡ office.now.lock)
                × (left.1.seat.table ≡ office.now.lock) }
        { work_both(rt, alloc, office, left.0, left.1) },
        move || -> Option<Seat<Counter>>
            requires { IsSync R.row × (right.0.seat.table ≡ office.now.lock)
                × (right.1.seat.table ≡ office.now.lock) }
        { work_both(rt, alloc, office, right.0, right.1) },
    );
    let mut left = left?;
    office.lock.join(&mut left, right?);
    Some(left)
}

// Two seats take three turns. The count is 3: the history has the three entries, and no others.
fn three_turns<R: Wait>(rt: &R, alloc: Global) -> Result<([u64; 3], u64), NoMemory>
    ensures { IfOk result (λ r. r.1 ≡ 3) }
{
    let (lock, mut one) = Turn::start(alloc, Counter { count: 0 })?;
    let mut two = lock.split(rt, &mut one);
    let first = lock.turn(rt, alloc, &mut one, ());
    let second = lock.turn(rt, alloc, &mut two, ());
    let third = lock.turn_by(rt, &mut one, (), |counter, call| counter.step(alloc, call));
    lock.join(&mut one, two);
    let counter = lock.close(one);
    Ok(([first, second, third], counter.count))
}

#[test]
fn two_seats_take_three_turns(rt: HostRuntime) -> Result<(), Fail> {
    assert_eq!(rt; three_turns(&rt, rt.alloc())?, ([0, 1, 2], 3));
    Ok(())
}

// The count after two or four clerks made 10,000 turns each, if each clerk's replies rose.
fn count_of<R: Threads + Wait + Sync>(rt: &R, alloc: Global, clerks: u32) -> Result<u64, Fail> {
    let (lock, mut first) = Turn::start(alloc, Counter { count: 0 })?;
    let two = lock.split(rt, &mut first);
    let three = lock.split(rt, &mut first);
    let four = lock.split(rt, &mut first);
    let turns = 10_000;
    let others = if clerks == 2 { 0 } else { turns };
    let office = Office { lock };
    let left = (
        Clerk { seat: first, turns },
        Clerk {
            seat: three,
            turns: others,
        },
    );
    let right = (
        Clerk { seat: two, turns },
        Clerk {
            seat: four,
            turns: others,
        },
    );
    let seat = work_all(rt, alloc, &office, left, right).ok_or("the replies rise")?;
    let Office { lock } = office;
    Ok(lock.close(seat).count)
}

#[test]
fn threads_take_turns(rt: HostRuntime) -> Result<(), Fail> {
    let by_two = count_of(&rt, rt.alloc(), 2)?;
    let by_four = count_of(&rt, rt.alloc(), 4)?;
    assert_eq!(rt; (by_two, by_four), (20_000, 40_000));
    Ok(())
}
