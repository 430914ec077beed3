//! Looks at a board.
ghost use Rattle.std.specs.Prelude.{◌≡◌, IfOk, length};
ghost use Rattle.map_board.specs.inner.Boards.{held_look, held_looks};
ghost use Rattle.map_board.specs.Machine.{Looks};

use crate::looks::{LookAll, LookRow, LookRows};
use crate::rows::HeldRow;
use crate::state::Board;
use scene_parts::{NoMemory, Receiver};
use std::alloc::Global;

impl Board {
    /// The whole board: its version, each receiver with what is shown of it, and the counts.
    pub fn look(&self, alloc: Global) -> Result<LookAll, NoMemory>
        ensures { Looks self.now result self.now }
    {
        let rows = look_at_each(alloc, self.hold.scene.receivers(), self.rows.as_slice())?;
        Ok(LookAll {
            version: self.version,
            rows: LookRows::from_vec(rows),
            counts: self.counts(),
        })
    }
}

/// Each receiver with what is shown of it.
fn look_at_each(
    alloc: Global,
    receivers: &[Receiver],
    rows: &[HeldRow],
) -> Result<Vec<LookRow>, NoMemory>
    requires { length rows.now ≡ length receivers.now }
    ensures { IfOk result (λ looks. looks.items ≡ held_looks receivers.now rows.now) }
{
    let mut looks = Vec::with_capacity(alloc, rows.len())?;
    for (place, row) in rows.iter().enumerate() {
        looks.push(look_at(&receivers[place], row)?)?;
    }
    Ok(looks)
}

/// A receiver with what is shown of it.
fn look_at(receiver: &Receiver, row: &HeldRow) -> Result<LookRow, NoMemory>
    ensures { IfOk result (λ look. look ≡ held_look receiver.now row.now) }
{
    Ok(LookRow {
        name: receiver.name.clone()?,
        shown: row.shown(),
    })
}
