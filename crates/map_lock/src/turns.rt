//! One turn of the board's machine through a bare seat, with a reply of its call's kind.
ghost use Rattle.std.specs.Prelude.{◌≡◌};
ghost use Rattle.std.specs.Thread.{IsSync};
ghost use Rattle.map_board.specs.Machine.{Step, Can};
ghost use Rattle.map_board.specs.Seats.{May, editor};
ghost use Rattle.map_lock.specs.Seats.{IsSeat};
ghost use Rattle.map_lock.specs.Turns.{HasTurned, RepliesBy};

use crate::lock::MapLock;
use crate::machine::{SharedBoard, step_with};
use crate::reply::{Reply, said_by};
use map_board::{Answer, BoardCall, BoardReply, Job, Landed, LookAll, Took};
use scene_book::{Edit, EditFault};
use scene_parts::NoMemory;
use std::alloc::Global;
use std::sync::Wait;
use std::thread::Threads;
use turn_lock::Seat;

impl MapLock {
    /// Makes a call in its turn, to which the board replies by a value of type `T`.
    fn ask<R: Wait, T: Reply>(
        &self,
        rt: &R,
        alloc: Global,
        seat: &mut Seat<SharedBoard>,
        call: BoardCall,
    ) -> T
        requires own { seat.old.table ≡ self.now }
        requires allowed { May seat.old.number seat.old.mine call }
        requires kind { RepliesBy T.said call }
        ensures turn { HasTurned seat.old call (T.said result) seat.new }
        ensures sound_before { IsSeat seat.old }
        ensures sound { IsSeat seat.new }
    {
        said_by(self.turn.turn(rt, alloc, seat, call))
    }

    /// The same, where threads may share the work of an edit. All of them have ended when the turn ends.
    fn ask_with<R: Threads + Wait + Sync, T: Reply>(
        &self,
        rt: &R,
        alloc: Global,
        seat: &mut Seat<SharedBoard>,
        call: BoardCall,
    ) -> T
        requires own { seat.old.table ≡ self.now }
        requires allowed { May seat.old.number seat.old.mine call }
        requires kind { RepliesBy T.said call }
        ensures turn { HasTurned seat.old call (T.said result) seat.new }
        ensures sound_before { IsSeat seat.old }
        ensures sound { IsSeat seat.new }
    {
        said_by(
            self.turn.turn_by(
                rt,
                seat,
                call,
                |machine: &mut SharedBoard, call: BoardCall| -> BoardReply
                    requires { IsSync R.row × Can machine.old.board call }
                    ensures { Step machine.old.board call result machine.new.board }
                { step_with(rt, alloc, machine, call) },
            ),
        )
    }

    pub(crate) fn ask_edit<R: Threads + Wait + Sync>(
        &self,
        rt: &R,
        alloc: Global,
        seat: &mut Seat<SharedBoard>,
        edit: Edit,
    ) -> Result<u64, EditFault>
        requires own { seat.old.table ≡ self.now }
        requires editor { seat.old.number ≡ editor }
        ensures turn { HasTurned seat.old (BoardCall.Edit edit) (BoardReply.Edited result) seat.new }
        ensures sound { IsSeat seat.new }
    {
        let edited: Result<u64, EditFault> = self.ask_with(rt, alloc, seat, BoardCall::Edit(edit));
        self.jobs.ring_where(edited.is_ok());
        edited
    }

    pub(crate) fn ask_finish<R: Wait>(&self, rt: &R, seat: &mut Seat<SharedBoard>)
        requires own { seat.old.table ≡ self.now }
        requires editor { seat.old.number ≡ editor }
        ensures turn { HasTurned seat.old BoardCall.Finish BoardReply.Done seat.new }
        ensures sound { IsSeat seat.new }
    {
        self.ask::<R, ()>(rt, self.alloc, seat, BoardCall::Finish);
        self.jobs.ring_for_all();
        self.reserve.call_all();
    }

    pub(crate) fn ask_take<R: Wait>(&self, rt: &R, seat: &mut Seat<SharedBoard>) -> Took
        requires own { seat.old.table ≡ self.now }
        ensures turn { HasTurned seat.old BoardCall.Take (BoardReply.Took result) seat.new }
        ensures sound_before { IsSeat seat.old }
        ensures sound { IsSeat seat.new }
    {
        self.ask(rt, self.alloc, seat, BoardCall::Take)
    }

    /// Takes a job, and wakes another worker where it got one; where there is none now, it sleeps until the bell of jobs
    /// has rung since this was heard.
    pub(crate) fn take_or_sleep<R: Wait>(
        &self,
        rt: &R,
        seat: &mut Seat<SharedBoard>,
        heard: u64,
    ) -> Took
        requires own { seat.old.table ≡ self.now }
        ensures turn { HasTurned seat.old BoardCall.Take (BoardReply.Took result) seat.new }
        ensures sound_before { IsSeat seat.old }
        ensures sound { IsSeat seat.new }
    {
        let took = self.ask_take(rt, seat);
        match &took {
            Took::Job(_) => self.jobs.wake_another(),
            Took::Idle { taken: _ } => self.jobs.sleep(rt, heard),
            Took::Finished => {}
        }
        took
    }

    pub(crate) fn ask_offer<R: Wait>(
        &self,
        rt: &R,
        seat: &mut Seat<SharedBoard>,
        answer: Answer,
    ) -> Landed
        requires own { seat.old.table ≡ self.now }
        requires owed { May seat.old.number seat.old.mine (BoardCall.Offer answer) }
        ensures turn { HasTurned seat.old
            (BoardCall.Offer answer) (BoardReply.Landed result) seat.new }
        ensures sound_before { IsSeat seat.old }
        ensures sound { IsSeat seat.new }
    {
        let landed: Landed = self.ask(rt, self.alloc, seat, BoardCall::Offer(answer));
        self.answers.ring();
        landed
    }

    pub(crate) fn ask_give_back<R: Wait>(&self, rt: &R, seat: &mut Seat<SharedBoard>, job: Job)
        requires own { seat.old.table ≡ self.now }
        requires owed { May seat.old.number seat.old.mine (BoardCall.GiveBack job) }
        ensures turn { HasTurned seat.old (BoardCall.GiveBack job) BoardReply.Done seat.new }
        ensures sound_before { IsSeat seat.old }
        ensures sound { IsSeat seat.new }
    {
        self.ask::<R, ()>(rt, self.alloc, seat, BoardCall::GiveBack(job));
        self.jobs.ring();
        self.answers.ring();
    }

    pub(crate) fn ask_look<R: Wait>(
        &self,
        rt: &R,
        alloc: Global,
        seat: &mut Seat<SharedBoard>,
    ) -> Result<LookAll, NoMemory>
        requires own { seat.old.table ≡ self.now }
        ensures turn { HasTurned seat.old BoardCall.Look (BoardReply.Looked result) seat.new }
        ensures sound { IsSeat seat.new }
    {
        self.ask(rt, alloc, seat, BoardCall::Look)
    }
}
