//! The replies of the board, each kind as a type.
ghost use Rattle.std.specs.Prelude.{◌≡◌};
ghost use Rattle.map_board.specs.declared.calls.BoardReply.TheVariants as replies;

use map_board::{BoardReply, Landed, LookAll, Took};
use scene_book::EditFault;
use scene_parts::NoMemory;

/// What the board replies to calls of one kind.
pub(crate) trait Reply: Drop {
    ghost use Rattle.std.specs.Prelude.{◌≡◌, Some};
    ghost use Rattle.map_board.specs.declared.calls.BoardReply.{BoardReply as ReplySaid};

    // This, as a reply of the board.
    ghost said: { Self → ReplySaid };

    /// What a reply says, if it is of this kind.
    fn of(reply: BoardReply) -> Option<Self>
        ensures { (value : Self) → reply ≡ said value → result ≡ Some value };
}

/// What a reply says that is of this kind.
pub(crate) fn said_by<T: Reply>(reply: BoardReply) -> T
    requires { (value : T) × (reply ≡ T.said value) }
    ensures { T.said result ≡ reply }
{
    match T::of(reply) {
        Some(value) => value,
        None => unreachable!(),
    }
}

impl Reply for Result<u64, EditFault> {
    ghost said = { replies.Edited };

    fn of(reply: BoardReply) -> Option<Result<u64, EditFault>> {
        match reply {
            BoardReply::Edited(result) => Some(result),
            _ => None,
        }
    }
}

impl Reply for Took {
    ghost said = { replies.Took };

    fn of(reply: BoardReply) -> Option<Took> {
        match reply {
            BoardReply::Took(took) => Some(took),
            _ => None,
        }
    }
}

impl Reply for () {
    ghost said = { λ done. replies.Done };

    fn of(reply: BoardReply) -> Option<()> {
        match reply {
            BoardReply::Done => Some(()),
            _ => None,
        }
    }
}

impl Reply for Landed {
    ghost said = { replies.Landed };

    fn of(reply: BoardReply) -> Option<Landed> {
        match reply {
            BoardReply::Landed(landed) => Some(landed),
            _ => None,
        }
    }
}

impl Reply for Result<LookAll, NoMemory> {
    ghost said = { replies.Looked };

    fn of(reply: BoardReply) -> Option<Result<LookAll, NoMemory>> {
        match reply {
            BoardReply::Looked(look) => Some(look),
            _ => None,
        }
    }
}
