//! The checks of what a line asks for beside edits.
ghost use Rattle.std.specs.Prelude.{◌≡◌, ◌≤◌, Ok, Err, IfOk, IfErr, IsTrue, length, pos, neg_ℤ, ◌≤ℤ◌};
ghost use Rattle.std.specs.List.{list_all};
ghost use Rattle.scene_parts.specs.Answers.{MatchesUnlessMemory, Unless, each, lacks_memory};
ghost use Rattle.scene_parts.specs.Checking.{corners_of, height_of, power_within, directivity_of, in_range as in_range_of};
ghost use Rattle.scene_parts.specs.Limits.{most_corners};
ghost use Rattle.scene_parts.specs.Parts.{IsHeight, is_power_within};
ghost use Rattle.command_lines.specs.Limits.{highest_level, least_line_power, greatest_line_power, shortest_piece, longest_piece};
ghost use Rattle.command_lines.specs.Checking.{level_of, checked_contour as checked_contour_of, checked_line_source as checked_line_source_of, version_of};

use crate::commands::contours::{ContourSpec, RawContour};
use crate::commands::limits::{
    MAX_LEVEL, MAX_LINE_POWER, MAX_PIECE_LENGTH, MAX_VERSION, MIN_LINE_POWER, MIN_PIECE_LENGTH,
};
use crate::commands::line_sources::{LineSpec, RawLineSource};
use scene_parts::fields::{
    check_outline, corners, directivity, height, in_range, kind_named, powers, within,
};
use scene_parts::limits::MAX_COLUMNS;
use scene_parts::{Field, Outline, PartFault, Shape};
use std::alloc::Global;

/// The contours that a line gives, or `OutOfRange` of the first field outside its range.
#[tactic(auto, unfolding(crate::specs::Checking::checked_contour))]
pub fn checked_contour(raw: RawContour) -> Result<ContourSpec, PartFault>
    ensures { result ≡ checked_contour_of raw }
{
    let level = level(raw.level)?;
    let columns = in_range(Field::Columns, 1, MAX_COLUMNS, raw.columns)?;
    let rows = in_range(Field::Rows, 1, MAX_COLUMNS, raw.rows)?;
    let name = raw.name.into_name();
    Ok(ContourSpec {
        name,
        level,
        columns,
        rows,
    })
}

/// The level of a contour in 0.01 dB, or `OutOfRange`.
#[tactic(auto, unfolding(crate::specs::Checking::level_of))]
fn level(level: i64) -> Result<i32, PartFault>
    ensures value { result ≡ level_of level }
    ensures low { IfOk result (λ level. pos 0 ≤ℤ level) }
    ensures high { IfOk result (λ level. level ≤ℤ pos highest_level) }
{
    Ok(within(Field::Level, 0, MAX_LEVEL, level)? as i32)
}

/// The version that an undo names, or `OutOfRange`.
#[tactic(auto, unfolding(crate::specs::Checking::version_of))]
pub fn version(version: i64) -> Result<u64, PartFault>
    ensures { result ≡ version_of version }
{
    Ok(within(Field::To, 0, MAX_VERSION, version)? as u64)
}

/// The line source that a line gives, or the first fault in the order of their numbers: `OutOfRange` of the points, the
/// height, the powers, the directivity correction and the piece, then `OutsideMethod`, `UnknownKind`, `FewCorners` and
/// `FlatShape`. Memory is taken for the points.
#[tactic(auto, unfolding(crate::specs::Checking::checked_line_source))]
pub fn checked_line_source(alloc: Global, raw: RawLineSource) -> Result<LineSpec, PartFault>
    ensures { MatchesUnlessMemory lacks_memory result (checked_line_source_of raw) }
{
    let LineValues {
        points,
        h,
        lw,
        dc,
        piece,
    } = line_values(alloc, &raw)?;
    let kind = kind_named(raw.kind)?;
    check_outline(Shape::Barrier, points.items())?;
    let name = raw.name.into_name();
    Ok(LineSpec {
        name,
        kind,
        points,
        h,
        lw,
        dc,
        piece,
    })
}

/// The points of a line source, and its numbers, each in its range.
#[derive(Drop)]
struct LineValues {
    points: Outline,
    h: u32,
    lw: [Option<i32>; 8],
    dc: i32,
    piece: u32,
}

/// The values of a line source that have ranges, or `OutOfRange` of the first that is outside its own.
#[tactic(auto, unfolding(crate::specs::Checking::checked_line_source))]
fn line_values(alloc: Global, raw: &RawLineSource) -> Result<LineValues, PartFault>
    ensures points { IfOk result (λ values. corners_of raw.now.points ≡ Ok values.points) }
    ensures few { IfOk result (λ values. length values.points ≤ most_corners) }
    ensures h { IfOk result (λ values. height_of raw.now.h ≡ Ok values.h) }
    ensures height { IfOk result (λ values. IsHeight values.h) }
    ensures lw { IfOk result (λ values. each (power_within (pos least_line_power) (pos greatest_line_power))
        raw.now.lw ≡ Ok values.lw) }
    ensures powers { IfOk result (λ values. IsTrue
        (list_all (is_power_within (pos least_line_power) (pos greatest_line_power)) values.lw)) }
    ensures dc { IfOk result (λ values. directivity_of raw.now.dc ≡ Ok values.dc) }
    ensures dc_low { IfOk result (λ values. neg_ℤ (pos 3000) ≤ℤ values.dc) }
    ensures dc_high { IfOk result (λ values. values.dc ≤ℤ pos 2000) }
    ensures piece { IfOk result (λ values. in_range_of Field.Piece shortest_piece longest_piece raw.now.piece
        ≡ Ok values.piece) }
    ensures piece_low { IfOk result (λ values. shortest_piece ≤ values.piece) }
    ensures piece_high { IfOk result (λ values. values.piece ≤ longest_piece) }
    ensures fault { IfErr result (λ fault.
        Unless (lacks_memory fault) (checked_line_source_of raw.now ≡ Err fault)) }
{
    let points = corners(alloc, raw.points.items())?;
    let h = height(raw.h)?;
    let lw = powers(MIN_LINE_POWER, MAX_LINE_POWER, raw.lw)?;
    let dc = directivity(raw.dc)?;
    let piece = in_range(Field::Piece, MIN_PIECE_LENGTH, MAX_PIECE_LENGTH, raw.piece)?;
    Ok(LineValues {
        points,
        h,
        lw,
        dc,
        piece,
    })
}
