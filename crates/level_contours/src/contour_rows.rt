//! The rows of a contour.
ghost use Rattle.std.specs.Prelude.{◌≡◌, ◌+◌, ◌<◌, ◌^◌, ◌∷◌, ◌++◌, length, IfOk, OnOk};
ghost use Rattle.level_contours.specs.Texts.{family_word, head_row, loop_row, point_row, points_from, loop_rows, loops_from, contour_rows, text_of};

use cell_loops::{Corner, Family, Loop, Loops};
use command_lines::ContourSpec;
use csv_rows::{RowText, RowTexts, RowWriter, digits};
use scene_parts::NoMemory;

/// The text of a contour at a version: all of its rows.
pub fn contour_text(
    writer: &mut RowWriter,
    version: u64,
    spec: &ContourSpec,
    inner: &Loops,
    outer: &Loops,
) -> Result<Vec<u8>, NoMemory>
    ensures { IfOk result (λ text. text.items
        ≡ text_of (contour_rows version spec.now inner.now outer.now)) }
{
    let rows = row_texts(writer, version, spec, inner, outer)?;
    let mut text = Vec::new(writer.alloc());
    for row in rows.items() {
        text.extend_from_slice(row.items())?;
    }
    Ok(text)
}

/// The rows of a contour at a version: the head, then the inner loops and the outer ones, numbered over both, each with its
/// points behind it.
pub fn row_texts(
    writer: &mut RowWriter,
    version: u64,
    spec: &ContourSpec,
    inner: &Loops,
    outer: &Loops,
) -> Result<RowTexts, NoMemory>
    ensures { IfOk result (λ texts. texts ≡ contour_rows version spec.now inner.now outer.now) }
{
    let mut rows = Vec::new(writer.alloc());
    let count = inner.items().len();
    let total = count + outer.items().len();
    rows.push(RowText::from_vec(head_text(writer, version, total, spec)?))?;
    push_loops(writer, version, Family::Inner, 0, inner.items(), &mut rows)?;
    push_loops(
        writer,
        version,
        Family::Outer,
        count,
        outer.items(),
        &mut rows,
    )?;
    Ok(RowTexts::from_vec(rows))
}

/// Adds the loops of a family, numbered from `first` on.
fn push_loops(
    writer: &mut RowWriter,
    version: u64,
    family: Family,
    first: usize,
    loops: &[Loop],
    rows: &mut Vec<RowText>,
) -> Result<(), NoMemory>
    requires { first < 2 ^ 63 }
    ensures { OnOk result (rows.new.items
        ≡ rows.old.items ++ loops_from version family first loops.now) }
{
    for (place, line) in loops.iter().enumerate() {
        push_loop(writer, version, family, first + place, line.items(), rows)?;
    }
    Ok(())
}

/// Adds a loop and its points.
fn push_loop(
    writer: &mut RowWriter,
    version: u64,
    family: Family,
    number: usize,
    points: &[Corner],
    rows: &mut Vec<RowText>,
) -> Result<(), NoMemory>
    ensures { OnOk result (rows.new.items
        ≡ rows.old.items ++ loop_rows version family number points.now) }
{
    let text = loop_text(writer, version, family, number, points.len())?;
    rows.push(RowText::from_vec(text))?;
    for (place, corner) in points.iter().enumerate() {
        let text = point_text(writer, version, number, place, *corner)?;
        rows.push(RowText::from_vec(text))?;
    }
    Ok(())
}

/// The row at the head of a contour.
#[tactic(auto, unfolding(crate::specs::Texts::head_row))]
fn head_text(
    writer: &mut RowWriter,
    version: u64,
    loops: usize,
    spec: &ContourSpec,
) -> Result<Vec<u8>, NoMemory>
    ensures { IfOk result (λ text. text.items ≡ head_row version loops spec.now) }
{
    let version = digits(version);
    let loops = digits(loops);
    let level = digits(spec.level);
    writer.fields_text(
        b"contour",
        version.as_bytes(),
        loops.as_bytes(),
        spec.name.items(),
        level.as_bytes(),
        b"",
        b"",
    )
}

/// The row of a loop.
#[tactic(auto, unfolding(crate::specs::Texts::loop_row))]
fn loop_text(
    writer: &mut RowWriter,
    version: u64,
    family: Family,
    number: usize,
    points: usize,
) -> Result<Vec<u8>, NoMemory>
    ensures { IfOk result (λ text. text.items ≡ loop_row version number family points) }
{
    let version = digits(version);
    let number = digits(number);
    let points = digits(points);
    writer.fields_text(
        b"loop",
        version.as_bytes(),
        number.as_bytes(),
        word(family),
        points.as_bytes(),
        b"",
        b"",
    )
}

/// The row of a point of a loop.
#[tactic(auto, unfolding(crate::specs::Texts::point_row))]
fn point_text(
    writer: &mut RowWriter,
    version: u64,
    number: usize,
    place: usize,
    corner: Corner,
) -> Result<Vec<u8>, NoMemory>
    ensures { IfOk result (λ text. text.items ≡ point_row version number place corner) }
{
    let Corner { x, y } = corner;
    let version = digits(version);
    let number = digits(number);
    let place = digits(place);
    let x = digits(x);
    let y = digits(y);
    writer.fields_text(
        b"point",
        version.as_bytes(),
        number.as_bytes(),
        place.as_bytes(),
        b"",
        x.as_bytes(),
        y.as_bytes(),
    )
}

fn word(family: Family) -> &'static [u8]
    ensures { result.now ≡ family_word family }
{
    match family {
        Family::Inner => b"inner",
        Family::Outer => b"outer",
    }
}
