//! The lock round a board, and its calls of one turn.
ghost use Rattle.std.specs.Prelude.{◌≡◌, ◌+◌, ◌-◌, ◌≤◌, length, sum_by, Ok, IfOk};
ghost use Rattle.turn_lock.specs.History.{Begins, IsRun};
ghost use Rattle.turn_lock.specs.Standing.{all_parts, first_standing, newcomer, taken_in, IsNew};
ghost use Rattle.map_board.specs.Rows.{start};
ghost use Rattle.map_board.specs.Machine.{Step};
ghost use Rattle.map_board.specs.Seats.{May};
ghost use Rattle.map_lock.specs.Seats.{IsSeat, IsEditor};
ghost use Rattle.map_lock.specs.Turns.{HasTurned};

use crate::bell::Bell;
use crate::machine::SharedBoard;
use crate::reserve::Reserve;
use crate::seats::{EditorSeat, LookSeat, WorkerSeat, counts_of};
use map_board::{Answer, Board, BoardCall, BoardReply, Job, Landed, LookAll, Took};
use scene_book::{Edit, EditFault};
use scene_parts::NoMemory;
use std::alloc::Global;
use std::marker::Model;
use std::sync::Wait;
use std::thread::Threads;
use turn_lock::Turn;

/// A board that is taken in turns. Contracts see it as the identity of its table, which its seats share. Calls that
/// bring no allocator take memory from the one that it was made with.
#[derive(Drop)]
pub struct MapLock {
    pub(crate) turn: Turn<SharedBoard>,
    pub(crate) alloc: Global,
    /// Rung where there may be a job: workers without one sleep by it.
    pub(crate) jobs: Bell,
    /// Rung where a job has come back: the editor sleeps by it in a settle.
    pub(crate) answers: Bell,
    pub(crate) reserve: Reserve,
}

impl Model for MapLock {
    ghost use Rattle.atomic_table.specs.Seated.{TableId, table_id_coded};

    ghost Value = { TableId };

    ghost coded = { table_id_coded };

    ghost view = { λ l. l.turn };
}

impl MapLock {
    /// A lock round a new board, with the editor's seat, which has all parts. Nothing is seen, done or joined yet.
    pub fn start(alloc: Global) -> Result<(MapLock, EditorSeat), NoMemory>
        ensures seat { IfOk result (λ r. r.1 ≡ first_standing r.0) }
        ensures sound { IfOk result (λ r. IsEditor r.1) }
    {
        MapLock::start_with_reserve(alloc, u32::MAX)
    }

    /// The same, with workers in reserve: so many take jobs at its desk at a time, and the others sleep until one of these
    /// ends, or the board is finished.
    pub fn start_with_reserve(
        alloc: Global,
        at_work: u32,
    ) -> Result<(MapLock, EditorSeat), NoMemory>
        ensures seat { IfOk result (λ r. r.1 ≡ first_standing r.0) }
        ensures sound { IfOk result (λ r. IsEditor r.1) }
    {
        let board = Board::new(alloc)?;
        let (turn, seat) = match Turn::start(alloc, SharedBoard { board }) {
            Ok(started) => started,
            Err(turn_lock::NoMemory) => return Err(NoMemory),
        };
        let counts = [0; 4];
        let lock = MapLock {
            turn,
            alloc,
            jobs: Bell::new(),
            answers: Bell::new(),
            reserve: Reserve::new(at_work),
        };
        Ok((lock, EditorSeat { seat, counts }))
    }

    /// A seat for a worker, that sees what the editor sees. It has one of the editor's parts, a number above all that the
    /// editor knows, and nothing done or joined. It may wait: where all numbers are used, for ever.
    pub fn worker<R: Wait>(&self, rt: &R, editor: &mut EditorSeat) -> WorkerSeat
        requires own { editor.old.table ≡ self.now }
        requires parts { 2 ≤ editor.old.parts }
        ensures new { result ≡ newcomer result.number editor.old }
        ensures number { IsNew result.number editor.old }
        ensures old { editor.new ≡ record editor.old { parts = editor.old.parts - 1 } }
        ensures editor_sound { IsEditor editor.new }
        ensures sound { IsSeat result }
    {
        let seat = self.turn.split(rt, &mut editor.seat);
        WorkerSeat {
            seat,
            place: None,
            heard: 0,
        }
    }

    /// A seat for one who looks, as `worker` says of a worker's.
    pub fn looker<R: Wait>(&self, rt: &R, editor: &mut EditorSeat) -> LookSeat
        requires own { editor.old.table ≡ self.now }
        requires parts { 2 ≤ editor.old.parts }
        ensures new { result ≡ newcomer result.number editor.old }
        ensures number { IsNew result.number editor.old }
        ensures old { editor.new ≡ record editor.old { parts = editor.old.parts - 1 } }
        ensures editor_sound { IsEditor editor.new }
        ensures sound { IsSeat result }
    {
        let seat = self.turn.split(rt, &mut editor.seat);
        LookSeat { seat }
    }

    /// Takes a worker's seat into the editor's: the editor then sees the longer of the two histories, has the parts of
    /// both, and knows the worker's entries beside the worker's number.
    pub fn join_worker(&self, editor: &mut EditorSeat, other: WorkerSeat)
        requires own { editor.old.table ≡ self.now }
        requires own_other { other.table ≡ self.now }
        ensures both { editor.new ≡ taken_in editor.old other }
        ensures seen { Begins editor.old.seen editor.new.seen }
        ensures seen_other { Begins other.seen editor.new.seen }
        ensures sound_other { IsSeat other }
        ensures sound { IsEditor editor.new }
    {
        let WorkerSeat {
            seat,
            place: _,
            heard: _,
        } = other;
        self.turn.join(&mut editor.seat, seat);
    }

    /// Takes a looker's seat into the editor's, as `join_worker` says of a worker's.
    pub fn join_looker(&self, editor: &mut EditorSeat, other: LookSeat)
        requires own { editor.old.table ≡ self.now }
        requires own_other { other.table ≡ self.now }
        ensures both { editor.new ≡ taken_in editor.old other }
        ensures seen { Begins editor.old.seen editor.new.seen }
        ensures seen_other { Begins other.seen editor.new.seen }
        ensures sound_other { IsSeat other }
        ensures sound { IsEditor editor.new }
    {
        let LookSeat { seat } = other;
        self.turn.join(&mut editor.seat, seat);
    }

    /// Hands the board out, at the run of the whole history. The seat has all parts, so every other seat was joined into
    /// it, and the history has as many entries as they and it made.
    pub fn close(self, seat: EditorSeat) -> Board
        requires own { seat.table ≡ self }
        requires whole { seat.parts ≡ all_parts }
        ensures run { IsRun start Step May seat.seen result }
        ensures entries { length seat.seen
            ≡ length seat.mine + sum_by (λ j. length j.mine) seat.joined }
        ensures sound { IsEditor seat }
    {
        let MapLock { turn, .. } = self;
        let EditorSeat { seat, counts: _ } = seat;
        let SharedBoard { board } = turn.close(seat);
        board
    }

    /// Edits the board, in the editor's turn. A refusal, or want of memory, leaves the board as it is. Where many bundles are
    /// kept, threads share the search for those that the edit touches; they have ended when the turn ends.
    pub fn edit<R: Threads + Wait + Sync>(
        &self,
        rt: &R,
        alloc: Global,
        seat: &mut EditorSeat,
        edit: Edit,
    ) -> Result<u64, EditFault>
        requires { seat.old.table ≡ self.now }
        ensures turn { HasTurned seat.old (BoardCall.Edit edit) (BoardReply.Edited result) seat.new }
        ensures sound { IsEditor seat.new }
    {
        self.ask_edit(rt, alloc, &mut seat.seat, edit)
    }

    /// Takes a job, if there is one, in the worker's turn.
    pub fn take<R: Wait>(&self, rt: &R, seat: &mut WorkerSeat) -> Took
        requires { seat.old.table ≡ self.now }
        ensures turn { HasTurned seat.old BoardCall.Take (BoardReply.Took result) seat.new }
        ensures sound_before { IsSeat seat.old }
        ensures sound { IsSeat seat.new }
    {
        self.ask_take(rt, &mut seat.seat)
    }

    /// Offers the answer of a job that was taken through this seat and is neither offered nor given back.
    pub fn offer<R: Wait>(&self, rt: &R, seat: &mut WorkerSeat, answer: Answer) -> Landed
        requires own { seat.old.table ≡ self.now }
        requires owed { May seat.old.number seat.old.mine (BoardCall.Offer answer) }
        ensures turn { HasTurned seat.old
            (BoardCall.Offer answer) (BoardReply.Landed result) seat.new }
        ensures sound_before { IsSeat seat.old }
        ensures sound { IsSeat seat.new }
    {
        self.ask_offer(rt, &mut seat.seat, answer)
    }

    /// Gives back a job that was taken through this seat and is neither offered nor given back.
    pub fn give_back<R: Wait>(&self, rt: &R, seat: &mut WorkerSeat, job: Job)
        requires own { seat.old.table ≡ self.now }
        requires owed { May seat.old.number seat.old.mine (BoardCall.GiveBack job) }
        ensures turn { HasTurned seat.old (BoardCall.GiveBack job) BoardReply.Done seat.new }
        ensures sound_before { IsSeat seat.old }
        ensures sound { IsSeat seat.new }
    {
        self.ask_give_back(rt, &mut seat.seat, job);
    }

    /// Looks at the whole board, in the looker's turn: after all that its seat had seen, at the least.
    pub fn look<R: Wait>(
        &self,
        rt: &R,
        alloc: Global,
        seat: &mut LookSeat,
    ) -> Result<LookAll, NoMemory>
        requires { seat.old.table ≡ self.now }
        ensures turn { HasTurned seat.old BoardCall.Look (BoardReply.Looked result) seat.new }
        ensures sound { IsSeat seat.new }
    {
        self.ask_look(rt, alloc, &mut seat.seat)
    }

    /// Looks at the whole board, in the editor's turn.
    pub fn look_as_editor<R: Wait>(
        &self,
        rt: &R,
        alloc: Global,
        seat: &mut EditorSeat,
    ) -> Result<LookAll, NoMemory>
        requires { seat.old.table ≡ self.now }
        ensures turn { HasTurned seat.old BoardCall.Look (BoardReply.Looked result) seat.new }
        ensures sound { IsEditor seat.new }
    {
        let look = self.ask_look(rt, alloc, &mut seat.seat);
        seat.counts = counts_of(&look, seat.counts);
        look
    }

    /// From this turn on every take answers that the board is finished.
    pub fn finish<R: Wait>(&self, rt: &R, seat: &mut EditorSeat)
        requires { seat.old.table ≡ self.now }
        ensures turn { HasTurned seat.old BoardCall.Finish BoardReply.Done seat.new }
        ensures sound { IsEditor seat.new }
    {
        self.ask_finish(rt, &mut seat.seat);
    }
}
