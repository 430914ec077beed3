//! The cells of a contour, as a look shows them.
ghost use Rattle.std.specs.Prelude.{◌≡◌, ◌++◌, IfOk, OnOk, map, unwrap_or};
ghost use Rattle.std.specs.Map.{lookup};
ghost use Rattle.fix_interval.specs.Interval.{All};
ghost use Rattle.scene_book.specs.Grid.{name_in};
ghost use Rattle.level_contours.specs.GridNames.{names_along, names_of};
ghost use Rattle.level_contours.specs.Looking.{cells_of};
ghost use Rattle.level_contours.specs.inner.Filing.{is_key, cell_found};

use crate::comparing::cell;
use crate::lookup::totals;
use crate::names::name_at;
use cell_loops::{Cell, Cells};
use command_lines::ContourSpec;
use fix_interval::Iv;
use indexmap::IndexMap;
use map_board::LookAll;
use scene_parts::NoMemory;
use std::alloc::Global;

/// The cells of a contour, row by row: each is compared with the contour's level by the total level that the look shows as
/// current of the receiver of its name. A cell of whose receiver no such level is shown is unsure.
pub fn cells(alloc: Global, look: &LookAll, spec: &ContourSpec) -> Result<Cells, NoMemory>
    ensures { IfOk result (λ cells. cells ≡ cells_of look.now spec.now) }
{
    let known = totals(alloc, look.rows.items())?;
    let cells = all_cells(alloc, &known, spec)?;
    Ok(Cells::from_vec(cells))
}

/// The cells of all rows, by what is known of the receivers.
fn all_cells(
    alloc: Global,
    known: &IndexMap<Vec<u8>, Iv>,
    spec: &ContourSpec,
) -> Result<Vec<Cell>, NoMemory>
    ensures { IfOk result (λ cells. cells.items
        ≡ map (cell_found known.now.entries spec.now.level) (names_of spec.now)) }
{
    let mut cells = Vec::new(alloc);
    for row in 0..spec.rows {
        push_row(alloc, known, spec, row, &mut cells)?;
    }
    Ok(cells)
}

/// Adds the cells of a row.
fn push_row(
    alloc: Global,
    known: &IndexMap<Vec<u8>, Iv>,
    spec: &ContourSpec,
    row: u32,
    cells: &mut Vec<Cell>,
) -> Result<(), NoMemory>
    ensures { OnOk result (cells.new.items ≡ cells.old.items
        ++ map (cell_found known.now.entries spec.now.level)
        (names_along spec.now.name row 0 spec.now.columns)) }
{
    for column in 0..spec.columns {
        let cell = cell_at(alloc, known, spec, row, column)?;
        cells.push(cell)?;
    }
    Ok(())
}

/// The cell of a row and a column.
#[tactic(auto, unfolding(crate::specs::inner::Filing::cell_found))]
fn cell_at(
    alloc: Global,
    known: &IndexMap<Vec<u8>, Iv>,
    spec: &ContourSpec,
    row: u32,
    column: u32,
) -> Result<Cell, NoMemory>
    ensures { IfOk result (λ cell. cell
        ≡ cell_found known.now.entries spec.now.level (name_in spec.now.name row column)) }
{
    let name = name_at(alloc, spec.name.items(), row, column)?;
    Ok(cell(found(known, name.as_slice()), spec.level))
}

/// What is known of the receiver of a name.
fn found(known: &IndexMap<Vec<u8>, Iv>, name: &[u8]) -> Iv
    ensures { result ≡ unwrap_or (lookup (is_key name.now) known.now.entries) All }
{
    known.get(name).copied().unwrap_or(Iv::ALL)
}
