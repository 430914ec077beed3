//! The board as a machine.
ghost use Rattle.map_board.specs.Machine.{Step, Can};
ghost use Rattle.map_board.specs.declared.calls.BoardCall.TheVariants as calls;

use map_board::{Board, BoardCall, BoardReply};
use scene_book::Edit;
use std::alloc::Global;
use std::thread::Threads;
use turn_lock::Machine;

/// The board that is shared.
#[derive(Drop)]
pub(crate) struct SharedBoard {
    pub board: Board,
}

impl Machine for SharedBoard {
    ghost use Rattle.map_board.specs.Rows.{start};
    ghost use Rattle.map_board.specs.Machine.{Step, Can};
    ghost use Rattle.map_board.specs.Seats.{May};
    ghost use Rattle.map_board.proofs.Lawful.{board-is-lawful};

    type State = Board;

    type Call = BoardCall;

    type Reply = BoardReply;

    ghost state = { λ m. m.board };

    ghost start = { start };

    ghost steps = { Step };

    ghost can = { Can };

    ghost may = { May };

    fn step(&mut self, alloc: Global, call: BoardCall) -> BoardReply {
        let board = &mut self.board;
        match call {
            BoardCall::Edit(edit) => edited(board, alloc, edit),
            BoardCall::Take => BoardReply::Took(board.take()),
            BoardCall::Finish => {
                board.finish();
                BoardReply::Done
            }
            BoardCall::Offer(answer) => BoardReply::Landed(board.offer(answer)),
            BoardCall::GiveBack(job) => {
                board.give_back(job);
                BoardReply::Done
            }
            BoardCall::Look => looked(board, alloc),
        }
    }

    ghost lawful = { board-is-lawful };
}

/// Answers an edit.
fn edited(board: &mut Board, alloc: Global, edit: Edit) -> BoardReply
    ensures { Step board.old (calls.Edit edit) result board.new }
{
    BoardReply::Edited(board.edit(alloc, edit))
}

/// Answers a look.
fn looked(board: &Board, alloc: Global) -> BoardReply
    ensures { Step board.now calls.Look result board.now }
{
    BoardReply::Looked(board.look(alloc))
}

/// Answers a call as the machine's step does. Threads share the search for what an edit touches.
pub(crate) fn step_with<R: Threads + Sync>(
    rt: &R,
    alloc: Global,
    machine: &mut SharedBoard,
    call: BoardCall,
) -> BoardReply
    requires { Can machine.old.board call }
    ensures { Step machine.old.board call result machine.new.board }
{
    match call {
        BoardCall::Edit(edit) => BoardReply::Edited(machine.board.edit_with(rt, alloc, edit)),
        call => machine.step(alloc, call),
    }
}
