//! One worker.
ghost use Rattle.receiver_workers.specs.Working.{HasWorked};

use crate::calls::Taken;
use crate::desk::Desk;
use crate::ended::Ended;
use map_io::Gate;
use std::sync::Wait;

/// Takes job after job, passes the gate with the worker's number and the job's place, solves the job
/// and offers the answer, until the desk is finished. A job that a solve hands back for want of
/// memory is given back, and the worker ends.
///
/// Every job that it took is offered or given back before it returns, so the seat owes what it owed
/// before. `Stopped` comes exactly where the seat's last call is a take that answered `Finished`; it
/// then gave nothing back. `NoMemory` comes exactly where its last call is the give-back of a job
/// that a solve handed back, the only give-back of this call.
pub fn work<R: Wait, D: Desk, G: Gate>(
    rt: &R,
    desk: &D,
    seat: &mut D::Seat,
    gate: &G,
    number: u32,
) -> Ended
    requires { D.fits desk.now seat.old }
    ensures { HasWorked (D.fits desk.now) D.follows D.owed D.last D.backs D.of
        seat.old result seat.new }
{
    for _ in rt.forever() {
        match desk.take(rt, seat) {
            Taken::Job(job) => {
                gate.pass(number, desk.place(&job));
                match desk.solve(job) {
                    Ok(answer) => desk.offer(rt, seat, answer),
                    Err(back) => {
                        desk.give_back(rt, seat, back);
                        return Ended::NoMemory;
                    }
                }
            }
            Taken::Idle => desk.wait(rt),
            Taken::Finished => return Ended::Stopped,
        }
    }
    unreachable!()
}
