//! Workers beside a body.
ghost use Rattle.std.specs.Prelude.{◌≡◌, ℕ, ◌+◌, ◌^◌, ◌<◌, length, All};
ghost use Rattle.std.specs.List.{AllZip};
ghost use Rattle.std.specs.Thread.{IsSend, IsSync};
ghost use Rattle.receiver_workers.specs.Working.{Worked};

use crate::desk::Desk;
use crate::worker::work;
use map_io::Gate;
use std::sync::Wait;
use std::thread::{self, Threads, join_mut};

/// Runs a worker at each seat, each in a thread of its own, beside `body` in this one, and answers
/// what `body` answered.
///
/// Workers are numbered from 1, in the order of the seats. `body` is called once, and each seat is
/// left as its worker left it. The workers end once the desk is finished: where `body` returns
/// without that, the call may wait for ever. With no seats no thread is started, and where none can
/// be made the workers run one after another, behind `body`.
pub fn with_workers<
    R: Threads + Wait + Sync,
    D: Desk + Sync,
    G: Gate + Sync,
    F: FnMut() -> T + Send,
    T: Send,
>(rt: &R, desk: &D, gate: &G, seats: &mut [D::Seat], body: &mut F) -> T
where
    D::Seat: Send,
    requires callable { F.pre body.old }
    requires fit { All (D.fits desk.now) seats.old }
    requires few { length seats.old < 2 ^ 32 }
    ensures body { F.step body.old result body.new }
    ensures seats { AllZip (Worked (D.fits desk.now) D.follows D.owed D.last D.backs D.of)
        seats.old seats.new }
{
    if seats.is_empty() {
        return body();
    }
    let mut workers = ||
        requires { IsSync R.row × IsSync D.row × IsSync G.row × IsSend D.Seat.row
            × All (D.fits desk.now) seats.now
            × (0 < length seats.now) × (length seats.now < 2 ^ 32) }
        ensures { AllZip (Worked (D.fits desk.entry.now) D.follows D.owed D.last D.backs D.of)
            seats.entry.now seats.exit.now }
    { work_each(rt, desk, gate, seats) };
    join_mut(rt, &mut workers, body).1
}

// A worker at each seat, of which there are some, in as many threads as there are seats.
fn work_each<R: Threads + Wait + Sync, D: Desk + Sync, G: Gate + Sync>(
    rt: &R,
    desk: &D,
    gate: &G,
    seats: &mut [D::Seat],
)
where
    D::Seat: Send,
    requires fit { All (D.fits desk.now) seats.old }
    requires some { 0 < length seats.old }
    requires few { length seats.old < 2 ^ 32 }
    ensures { AllZip (Worked (D.fits desk.now) D.follows D.owed D.last D.backs D.of)
        seats.old seats.new }
{
    let threads = seats.len();
    thread::for_each_mut(
        rt,
        seats,
        threads,
        &|place: usize, seat: &mut D::Seat|
            requires { D.fits desk.now seat.old × (place + 1 < 2 ^ 32) }
            ensures { Worked (D.fits desk.entry.now) D.follows D.owed D.last D.backs D.of
                seat.old seat.new }
        {
            work(rt, desk, seat, gate, number_at(place));
        },
    );
}

// The number of the worker at this place of the seats. The editor is 0.
fn number_at(place: usize) -> u32
    requires { place + 1 < 2 ^ 32 }
    ensures { result ≡ place + 1 }
{
    place as u32 + 1
}
