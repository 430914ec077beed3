//! The rows of contours on their way to the sink.
ghost use Rattle.std.specs.Prelude.{◌≡◌, IfOk};
ghost use Rattle.map_text.specs.Taking.{Takes, CausedByWriteFault, IsSameSink};
ghost use Rattle.noise_map.specs.Texts.{contour_rows_in};

use command_lines::ContourSpec;
use level_contours::{Family, cells, loops, row_texts};
use map_board::LookAll;
use map_io::Sink;
use map_text::{NoMemory, RowTexts, RowWriter, Rows, Stopped};

/// Writes the rows of contours, by what a look shows of the receivers of their grid.
pub fn write_contours<K: Sink>(
    rows: &mut Rows<K>,
    contour: &ContourSpec,
    look: &LookAll,
) -> Result<(), Stopped>
    ensures taken { Takes result (K.taken rows.old.out.now) (K.taken rows.new.out.now)
        (contour_rows_in contour.now look.now) }
    ensures cause { CausedByWriteFault result (K.faults rows.old.out.now)
        (K.faults rows.new.out.now) }
    ensures same { IsSameSink rows.old rows.new }
{
    let texts = contour_texts(rows.writer, contour, look)?;
    rows.put_each(texts.items())
}

/// The rows of contours.
fn contour_texts(
    writer: &mut RowWriter,
    contour: &ContourSpec,
    look: &LookAll,
) -> Result<RowTexts, NoMemory>
    ensures { IfOk result (λ texts. texts ≡ contour_rows_in contour.now look.now) }
{
    let alloc = writer.alloc();
    let cells = cells(alloc, look, contour)?;
    let inner = loops(alloc, contour.columns, contour.rows, &cells, Family::Inner)?;
    let outer = loops(alloc, contour.columns, contour.rows, &cells, Family::Outer)?;
    row_texts(writer, look.version, contour, &inner, &outer)
}
