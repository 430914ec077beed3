//! The edits that undo an edit, as one list.
ghost use Rattle.std.specs.Prelude.{◌≡◌};

use scene_book::Edit;
use std::marker::Model;

/// The edits that undo an edit, in their order. Contracts see it as the list of them.
#[derive(Debug, Drop)]
pub struct Inverse {
    edits: Vec<Edit>,
}

impl Model for Inverse {
    ghost use Rattle.std.specs.Prelude.{List};
    ghost use Rattle.scene_book.specs.declared.edits.Edit.{Edit};

    ghost Value = { List Edit };

    ghost view = { λ inverse. inverse.edits.items };
}

impl Inverse {
    /// These edits.
    pub(crate) fn from_vec(edits: Vec<Edit>) -> Self
        ensures { result ≡ edits.items }
    {
        Inverse { edits }
    }

    /// The edits.
    pub fn items(&self) -> &[Edit]
        ensures { result.now ≡ self.now }
    {
        self.edits.as_slice()
    }

    /// The edits, one after another.
    pub fn into_vec(self) -> Vec<Edit>
        ensures { result.items ≡ self }
    {
        self.edits
    }
}
