//! The entering of sides in the cells that they have.

ghost use Rattle.std.specs.Prelude.{◌≡◌, ◌<◌, true, length, IfOk, OnOk};
ghost use Rattle.part_grid.specs.Span.{has};
ghost use Rattle.part_grid.specs.inner.Index.{Holds, HoldsAll, IsWithin, IsIndex, EntersColumn, EntersSide, cells_of};

use crate::cells::frame::{Frame, cell_count, cell_number};
use crate::cells::lines::{columns_between, rows_between};
use crate::cells::span::Span;
use crate::numbers::register::Register;
use crate::owned::Owned;
use scene_geom::Side;
use std::alloc::{AllocError, Global};

/// The numbers of some sides, each in all cells that the side has.
pub fn entered(alloc: Global, sides: &[Owned], frame: Frame) -> Result<Register, AllocError>
    requires columns { frame.columns.high < 124 }
    requires rows { frame.rows.high < 124 }
    requires holds { HoldsAll frame sides.now }
    ensures { IfOk result (λ register. IsIndex sides.now frame register) }
{
    let mut register = Register::new(alloc, cell_count(frame))?;
    for (number, owned) in sides.iter().enumerate() {
        enter_side(&mut register, frame, number, owned.side)?;
    }
    Ok(register)
}

/// Enters a number in all cells of a side.
fn enter_side(
    register: &mut Register,
    frame: Frame,
    number: usize,
    side: Side,
) -> Result<(), AllocError>
    requires columns { frame.columns.high < 124 }
    requires rows { frame.rows.high < 124 }
    requires holds { Holds frame side }
    requires cells { length register.old ≡ cells_of frame }
    ensures cells { OnOk result (length register.new ≡ cells_of frame) }
    ensures numbers { OnOk result (EntersSide frame side number register.old register.new) }
{
    let columns = columns_between(side.from, side.to);
    let rows = rows_between(side.from, side.to);
    for column in columns.low..columns.high + 1 {
        enter_column(register, frame, number, column, rows)?;
    }
    Ok(())
}

/// Enters a number in the cells of a column within some rows.
fn enter_column(
    register: &mut Register,
    frame: Frame,
    number: usize,
    column: usize,
    rows: Span,
) -> Result<(), AllocError>
    requires columns { frame.columns.high < 124 }
    requires rows { frame.rows.high < 124 }
    requires column { has frame.columns column ≡ true }
    requires within { IsWithin rows frame.rows }
    requires cells { length register.old ≡ cells_of frame }
    ensures cells { OnOk result (length register.new ≡ cells_of frame) }
    ensures numbers { OnOk result (EntersColumn frame column rows number register.old register.new) }
{
    for row in rows.low..rows.high + 1 {
        register.enter(cell_number(frame, column, row), number)?;
    }
    Ok(())
}
