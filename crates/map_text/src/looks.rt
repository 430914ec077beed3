//! The rows of a receiver in a settle or a look.
ghost use Rattle.std.specs.Prelude.{◌≡◌, ◌++◌, IfOk, OnOk, map};
ghost use Rattle.map_text.specs.Looks.{row_of_band, shown_bands, receiver_row, receiver_rows};

use crate::levels::{band_text, current_text, new_text, stale_text};
use csv_rows::{RowText, RowTexts, RowWriter};
use map_board::{LookRow, Shown};
use path_calc::Levels;
use scene_geom::Band;
use scene_parts::{Name, NoMemory};

/// The row of a receiver in a look at a version: what is shown of it. It asks for no memory beside that of its text.
pub fn receiver_text(
    writer: &mut RowWriter,
    version: u64,
    row: &LookRow,
) -> Result<Vec<u8>, NoMemory>
    ensures { IfOk result (λ text. text.items ≡ receiver_row version row.now) }
{
    let name = &row.name;
    match &row.shown {
        Shown::Current(levels) => current_text(writer, version, name, levels.total),
        Shown::Stale {
            version: kept,
            by,
            levels,
        } => stale_text(writer, *kept, name, *by, levels.total),
        Shown::New { since } => new_text(writer, *since, name),
    }
}

/// The rows of a receiver in a look at a version: what is shown of it, and behind that, where bands are asked for, the level in
/// each band, if it has levels.
pub fn row_text(
    writer: &mut RowWriter,
    version: u64,
    row: &LookRow,
    bands: bool,
) -> Result<RowTexts, NoMemory>
    ensures { IfOk result (λ texts. texts ≡ receiver_rows bands version row.now) }
{
    let mut rows = Vec::new(writer.alloc());
    rows.push(RowText::from_vec(receiver_text(writer, version, row)?))?;
    if bands {
        push_shown_bands(writer, version, row, &mut rows)?;
    }
    Ok(RowTexts::from_vec(rows))
}

/// Adds the rows of the bands of a receiver, if it has levels.
fn push_shown_bands(
    writer: &mut RowWriter,
    version: u64,
    row: &LookRow,
    rows: &mut Vec<RowText>,
) -> Result<(), NoMemory>
    ensures { OnOk result (rows.new.items
        ≡ rows.old.items ++ shown_bands version row.now.name row.now.shown) }
{
    let all = Band::all();
    match &row.shown {
        Shown::Current(levels) => {
            push_bands(writer, all.as_slice(), version, &row.name, levels, rows)
        }
        Shown::Stale {
            version: kept,
            levels,
            ..
        } => push_bands(writer, all.as_slice(), *kept, &row.name, levels, rows),
        Shown::New { .. } => Ok(()),
    }
}

/// Adds the rows of these bands.
fn push_bands(
    writer: &mut RowWriter,
    bands: &[Band],
    version: u64,
    name: &Name,
    levels: &Levels,
    rows: &mut Vec<RowText>,
) -> Result<(), NoMemory>
    ensures { OnOk result (rows.new.items
        ≡ rows.old.items ++ map (row_of_band version name.now levels.now) bands.now) }
{
    for band in bands {
        let text = text_of_band(writer, version, name, levels, *band)?;
        rows.push(RowText::from_vec(text))?;
    }
    Ok(())
}

fn text_of_band(
    writer: &mut RowWriter,
    version: u64,
    name: &Name,
    levels: &Levels,
    band: Band,
) -> Result<Vec<u8>, NoMemory>
    ensures { IfOk result (λ text. text.items ≡ row_of_band version name.now levels.now band) }
{
    let level = levels.bands[band.place()];
    band_text(writer, version, name, band, level)
}
