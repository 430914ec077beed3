//! The rows that show levels.
ghost use Rattle.std.specs.Prelude.{◌≡◌, ◌<◌, ◌^◌, Some, IfOk, IsSomeAnd};
ghost use Rattle.energy_sum.specs.Sums.{units_of};
ghost use Rattle.map_text.specs.Rounding.{IsPrintable, IsPrintableLevel};
ghost use Rattle.map_text.specs.Rows.{hundredths_text, low_text, high_text, level_row, current_row, stale_row, new_row, band_row, made_row};

use crate::rounding::{high_hundredths, low_hundredths};
use arrayvec::ArrayString;
use csv_rows::{RowWriter, digits};
use fix_interval::Iv;
use itoa::Buffer;
use scene_geom::Band;
use scene_parts::{Name, NoMemory};

/// How many bytes an end takes at most: those of three numbers of 64 bits, and of a point.
const MAX_BYTES: usize = 64;

#[tactic(auto, unfolding(crate::specs::Rows::hundredths_text))]
fn decibels(hundredths: u64) -> ArrayString<MAX_BYTES>
    ensures { result.bytes ≡ hundredths_text hundredths }
{
    let mut buffer = Buffer::new();
    let mut text = ArrayString::new();
    text.push_str(buffer.format(hundredths / 100));
    text.push('.');
    text.push_str(buffer.format(hundredths / 10 % 10));
    text.push_str(buffer.format(hundredths % 10));
    text
}

/// The text of a low end, which is rounded down.
fn low_text(end: i128) -> ArrayString<MAX_BYTES>
    requires { IsPrintable end }
    ensures { result.bytes ≡ low_text (Some end) }
{
    decibels(low_hundredths(end as u64))
}

/// The text of a high end, which is rounded up.
fn high_text(end: i128) -> ArrayString<MAX_BYTES>
    requires { IsPrintable end }
    ensures { result.bytes ≡ high_text (Some end) }
{
    decibels(high_hundredths(end as u64))
}

/// An end that is known to be there.
fn end_of(end: Option<i128>) -> i128
    requires { IsSomeAnd end IsPrintable }
    ensures value { end ≡ Some result }
    ensures printable { IsPrintable result }
{
    end.unwrap()
}

// A row that shows a level.
#[tactic(auto, unfolding(crate::specs::Rows::level_row))]
fn level_text(
    writer: &mut RowWriter,
    kind: &[u8],
    version: u64,
    name: &Name,
    state: &[u8],
    by: &[u8],
    level: Iv,
) -> Result<Vec<u8>, NoMemory>
    requires { IsPrintableLevel level }
    ensures { IfOk result (λ text. text.items
        ≡ level_row kind.now version name.now state.now by.now level) }
{
    let version = digits(version);
    let low = low_text(end_of(level.low()));
    let high = high_text(end_of(level.high()));
    writer.fields_text(
        kind,
        version.as_bytes(),
        name.items(),
        state,
        by,
        low.as_bytes(),
        high.as_bytes(),
    )
}

/// The row of a receiver that is current, with its A-weighted long-term level, whose ends are from 0 dB to below 2^32 dB.
pub fn current_text(
    writer: &mut RowWriter,
    version: u64,
    name: &Name,
    total: Iv,
) -> Result<Vec<u8>, NoMemory>
    requires { IsPrintableLevel total }
    ensures { IfOk result (λ text. text.items ≡ current_row version name.now total) }
{
    level_text(writer, b"row", version, name, b"current", b"", total)
}

/// The row of a receiver that is stale, with its A-weighted long-term level, whose ends are from 0 dB to below 2^32 dB: the
/// version whose scene gave the level, and the first edit after that which touches the receiver.
pub(crate) fn stale_text(
    writer: &mut RowWriter,
    version: u64,
    name: &Name,
    by: u64,
    total: Iv,
) -> Result<Vec<u8>, NoMemory>
    requires { IsPrintableLevel total }
    ensures { IfOk result (λ text. text.items ≡ stale_row version name.now by total) }
{
    let by = digits(by);
    level_text(
        writer,
        b"row",
        version,
        name,
        b"stale",
        by.as_bytes(),
        total,
    )
}

/// The row of a receiver that has had no level since this edit put it.
#[tactic(auto, unfolding(crate::specs::Rows::new_row))]
pub(crate) fn new_text(writer: &mut RowWriter, since: u64, name: &Name) -> Result<Vec<u8>, NoMemory>
    ensures { IfOk result (λ text. text.items ≡ new_row since name.now) }
{
    let since = digits(since);
    writer.fields_text(
        b"row",
        since.as_bytes(),
        name.items(),
        b"new",
        b"",
        b"",
        b"",
    )
}

/// The row of a band of a receiver, with its level there, which isn't weighted, and whose ends are from 0 dB to below
/// 2^32 dB.
pub fn band_text(
    writer: &mut RowWriter,
    version: u64,
    name: &Name,
    band: Band,
    level: Iv,
) -> Result<Vec<u8>, NoMemory>
    requires { IsPrintableLevel level }
    ensures { IfOk result (λ text. text.items ≡ band_row version name.now band level) }
{
    let frequency = digits(band.frequency());
    level_text(
        writer,
        b"band",
        version,
        name,
        frequency.as_bytes(),
        b"",
        level,
    )
}

/// The row of the run of a generated site: the last version, how many receivers there are, the number `n` of the site,
/// how many of its lines were refused, and the least low end and the greatest high end of the last settle, in units of
/// 2^-32 dB.
#[tactic(auto, unfolding(crate::specs::Rows::made_row))]
pub fn made_text(
    writer: &mut RowWriter,
    version: u64,
    rows: u32,
    n: u32,
    refused: u64,
    low: i128,
    high: i128,
) -> Result<Vec<u8>, NoMemory>
    requires low { IsPrintable low }
    requires high { IsPrintable high }
    ensures { IfOk result (λ text. text.items ≡ made_row version rows n refused low high) }
{
    let version = digits(version);
    let rows = digits(rows);
    let n = digits(n);
    let refused = digits(refused);
    let low = low_text(low);
    let high = high_text(high);
    writer.fields_text(
        b"made",
        version.as_bytes(),
        rows.as_bytes(),
        n.as_bytes(),
        refused.as_bytes(),
        low.as_bytes(),
        high.as_bytes(),
    )
}
