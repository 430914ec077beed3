//! Looks at the whole board.

pub(crate) mod looking;

use crate::answers::Shown;
use scene_parts::Name;
use std::marker::Model;

/// A receiver and what is shown of it.
#[derive(Drop)]
pub struct LookRow {
    pub name: Name,
    pub shown: Shown,
}

/// Rows in the order of the scene's receivers. Contracts see it as the list of them.
#[derive(Drop)]
pub struct LookRows {
    rows: Vec<LookRow>,
}

impl Model for LookRows {
    ghost use Rattle.std.specs.Prelude.{List};
    ghost use Rattle.map_board.specs.declared.looks.LookRow.{LookRow};

    ghost Value = { List LookRow };

    ghost view = { λ look. look.rows.items };
}

impl LookRows {
    ghost use Rattle.std.specs.Prelude.{◌≡◌};

    /// The list of these rows.
    pub fn from_vec(items: Vec<LookRow>) -> Self
        ensures { result ≡ items.items }
    {
        LookRows { rows: items }
    }

    /// The rows in their order.
    pub fn items(&self) -> &[LookRow]
        ensures { result.now ≡ self.now }
    {
        self.rows.as_slice()
    }
}

/// The whole board at a version: its rows, and how many jobs were taken, answers kept, answers gone, and jobs given back.
#[derive(Drop)]
pub struct LookAll {
    pub version: u64,
    pub rows: LookRows,
    pub counts: [u64; 4],
}
