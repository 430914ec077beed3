//! The names of the receivers of a grid.
ghost use Rattle.std.specs.Prelude.{◌≡◌, ◌≤◌, ◌<◌, IfOk};
ghost use Rattle.scene_book.specs.Grid.{name_in};

use scene_parts::NoMemory;
use std::alloc::Global;

/// The name of a receiver of a grid.
pub fn name_at(alloc: Global, name: &[u8], row: u32, column: u32) -> Result<Vec<u8>, NoMemory>
    ensures { IfOk result (λ made. made.items ≡ name_in name.now row column) }
{
    let mut bytes = name.to_vec(alloc)?;
    bytes.push(b'/')?;
    let column = column.to_string(alloc)?;
    bytes.extend_from_slice(column.as_bytes())?;
    bytes.push(b'/')?;
    let row = row.to_string(alloc)?;
    bytes.extend_from_slice(row.as_bytes())?;
    Ok(bytes)
}
