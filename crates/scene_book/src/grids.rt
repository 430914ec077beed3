//! The receivers of grids.
ghost use Rattle.std.specs.Prelude.{◌≡◌, ◌+◌, ◌-◌, ◌*◌, ◌<◌, ◌≤◌, [], ◌∷◌, ◌++◌, pos, ◌+ℤ◌, ◌≤ℤ◌, IfOk, OnOk};
ghost use Rattle.std.specs.Fmt.{decimal};
ghost use Rattle.scene_geom.specs.Plan.{InPlan};
ghost use Rattle.scene_parts.specs.Limits.{widest_step, most_columns, plan_end};
ghost use Rattle.scene_parts.specs.Names.{IsName};
ghost use Rattle.scene_parts.specs.Parts.{last_place};
ghost use Rattle.scene_book.specs.Lists.{AreApart};
ghost use Rattle.scene_book.specs.Grid.{name_in, receiver_at, columns_from, receivers_of};

use scene_geom::Pt;
use scene_parts::{GridSpec, Name, NoMemory, Receiver};
use std::alloc::Global;

/// The receivers of a grid, row by row, each named by its column and row.
pub fn receivers(alloc: Global, grid: &GridSpec) -> Result<Vec<Receiver>, NoMemory>
    ensures value { IfOk result (λ receivers. receivers.items ≡ receivers_of grid.now) }
    ensures apart { IfOk result (λ receivers. AreApart (λ r. r.name) receivers.items) }
{
    let mut receivers = Vec::new(alloc);
    for row in 0..grid.rows {
        add_row(alloc, grid, row, &mut receivers)?;
    }
    Ok(receivers)
}

/// Adds a row of a grid.
fn add_row(
    alloc: Global,
    grid: &GridSpec,
    row: u32,
    receivers: &mut Vec<Receiver>,
) -> Result<(), NoMemory>
    requires { row < grid.now.rows }
    ensures { OnOk result
        (receivers.new.items
        ≡ receivers.old.items ++ columns_from grid.now row 0 grid.now.columns) }
{
    for column in 0..grid.columns {
        let receiver = receiver(alloc, grid, row, column)?;
        receivers.push(receiver)?;
    }
    Ok(())
}

/// The receiver of a row and a column, both from 0.
fn receiver(alloc: Global, grid: &GridSpec, row: u32, column: u32) -> Result<Receiver, NoMemory>
    requires row { row < grid.now.rows }
    requires column { column < grid.now.columns }
    ensures { IfOk result (λ receiver. receiver ≡ receiver_at grid.now row column) }
{
    let name = name_at(alloc, grid.name.items(), row, column)?;
    let x = along(grid.at.x, grid.step, column, grid.columns);
    let y = along(grid.at.y, grid.step, row, grid.rows);
    Ok(Receiver {
        name,
        at: Pt::new(x, y),
        h: grid.h,
    })
}

/// A coordinate of a grid, in mm.
fn along(start: i32, step: u32, index: u32, count: u32) -> i64
    requires start { InPlan start }
    requires step { step ≤ widest_step }
    requires index { index < count }
    requires count { count ≤ most_columns }
    requires last { last_place start step count ≤ℤ pos plan_end }
    ensures value { result ≡ start +ℤ pos (step * index) }
    ensures in_plan { InPlan result }
{
    i64::from(start) + i64::from(step * index)
}

/// The name of a receiver of a grid.
fn name_at(alloc: Global, name: &[u8], row: u32, column: u32) -> Result<Name, NoMemory>
    requires name { IsName name.now }
    requires row { row < most_columns }
    requires column { column < most_columns }
    ensures { IfOk result (λ made. made ≡ name_in name.now row column) }
{
    let mut bytes = name.to_vec(alloc)?;
    add_number(alloc, column, &mut bytes)?;
    add_number(alloc, row, &mut bytes)?;
    Ok(Name::from_vec(bytes))
}

/// Adds `/` and a number to the bytes of a name.
fn add_number(alloc: Global, number: u32, bytes: &mut Vec<u8>) -> Result<(), NoMemory>
    ensures { OnOk result (bytes.new.items ≡ bytes.old.items ++ 47 ∷ [] ++ decimal number) }
{
    bytes.push(b'/')?;
    let digits = number.to_string(alloc)?;
    Ok(bytes.extend_from_slice(digits.as_bytes())?)
}
