//! The journal of a board, for the proofs alone: no edit is held.
ghost use Rattle.std.specs.Prelude.{◌≡◌, ◌∷◌, ◌++◌, []};

use scene_book::Edit;
use std::marker::Model;
use std::snapshot::Snapshot;

/// All accepted edits, the oldest first. It holds none of them: contracts alone see the list.
#[cycle(past)]
#[derive(Drop)]
pub(crate) struct Past {
    last: Option<Snapshot<Grown>>,
}

/// A journal with one edit more.
#[cycle(past)]
#[derive(Drop)]
struct Grown {
    before: Past,
    edit: Edit,
}

impl Model for Past {
    ghost use Rattle.std.specs.Prelude.{List, length};
    ghost use Rattle.scene_book.specs.declared.edits.Edit.{Edit};

    ghost Value = { List Edit };

    ghost use Rattle.map_board.specs.inner.Past.{journal_of};

    ghost view = { λ p. journal_of p.last };

    ghost size = { length };

    ghost use Rattle.std.proofs.Common.{arith, length-append};

    ghost size_decreases = { λ a h. Prim.grind (arith, length-append) };
}

impl Past {
    /// No edit.
    pub(crate) fn none() -> Past
        ensures { result ≡ [] }
    {
        Past { last: None }
    }

    /// These edits and one more.
    pub(crate) fn and(self, edit: Edit) -> (Past, Edit)
        ensures past { result.0 ≡ self ++ edit ∷ [] }
        ensures edit { result.1 ≡ edit }
    {
        let grown = Grown { before: self, edit };
        let last = Some(Snapshot::of(&grown));
        let Grown { before: _, edit } = grown;
        (Past { last }, edit)
    }
}
