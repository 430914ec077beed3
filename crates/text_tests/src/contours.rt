//! Contours, as the format shows them.
use cell_loops::{Cell, Cells, Family, loops};
use command_lines::ContourSpec;
use level_contours::{RowWriter, cells, contour_text, first_missing};
use map_board::{LookAll, LookRow, LookRows, Shown};
use scene_book::Scene;
use scene_parts::{Name, NoMemory};
use std::alloc::Global;
use std::test::Fail;

/// What a contour of three columns and a row is asked with.
fn spec(alloc: Global) -> Result<ContourSpec, NoMemory> {
    let name = Name::from_vec(b"g".to_vec(alloc)?);
    Ok(ContourSpec {
        name,
        level: 5163,
        columns: 3,
        rows: 1,
    })
}

/// The text of a contour of a cell above, one that is unsure, and one below.
fn text(alloc: Global) -> Result<Vec<u8>, NoMemory> {
    let spec = spec(alloc)?;
    let row = Cells::from_vec([Cell::Above, Cell::Unsure, Cell::Below].to_vec(alloc)?);
    if row.items().len() != 3 {
        return Err(NoMemory);
    }
    let inner = loops(alloc, 3, 1, &row, Family::Inner)?;
    let outer = loops(alloc, 3, 1, &row, Family::Outer)?;
    let mut writer = RowWriter::new(alloc);
    contour_text(&mut writer, 2, &spec, &inner, &outer)
}

/// The cells of a look at one receiver that has no level yet.
fn new_cells(alloc: Global) -> Result<Cells, NoMemory> {
    let spec = spec(alloc)?;
    let mut rows = Vec::new(alloc);
    let name = Name::from_vec(b"g/0/0".to_vec(alloc)?);
    let shown = Shown::New { since: 1 };
    rows.push(LookRow { name, shown })?;
    let rows = LookRows::from_vec(rows);
    let counts = [0; 4];
    let look = LookAll {
        version: 1,
        rows,
        counts,
    };
    cells(alloc, &look, &spec)
}

#[test]
fn a_contour_has_this_text(rt: HostRuntime) -> Result<(), Fail> {
    let text = text(rt.alloc())?;
    let expected =
        b"contour,2,2,g,5163,,\nloop,2,0,inner,4,,\npoint,2,0,0,,0,0\npoint,2,0,1,,1,0\npoint,2,0,2,,1,1\npoint,2,0,3,,0,1\nloop,2,1,outer,4,,\npoint,2,1,0,,0,0\npoint,2,1,1,,2,0\npoint,2,1,2,,2,1\npoint,2,1,3,,0,1\n";
    assert_eq!(rt; text.as_slice(), expected.as_slice());
    Ok(())
}

#[test]
fn cells_without_levels_are_unsure(rt: HostRuntime) -> Result<(), Fail> {
    let cells = new_cells(rt.alloc())?;
    assert_eq!(rt; cells.items(), [Cell::Unsure; 3].as_slice());
    Ok(())
}

#[test]
fn an_empty_scene_lacks_the_first(rt: HostRuntime) -> Result<(), Fail> {
    let spec = spec(rt.alloc())?;
    let scene = Scene::empty(rt.alloc())?;
    let missing = first_missing(rt.alloc(), &spec, &scene)?;
    assert_eq!(rt; missing.is_some(), true);
    Ok(())
}
