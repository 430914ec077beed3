//! Numbers of fields in their ranges.
ghost use Rattle.std.specs.Prelude.{◌≡◌, ◌≤◌, ◌<◌, ◌^◌, pos, ◌≤ℤ◌, IfOk, IfSome};
ghost use Rattle.scene_geom.specs.declared.plan.Pt.{Pt};
ghost use Rattle.scene_parts.specs.Answers.{optional};
ghost use Rattle.scene_parts.specs.Limits.{most_columns, widest_step, plan_end};
ghost use Rattle.scene_parts.specs.Parts.{IsHeight, IsCount, last_place};
ghost use Rattle.scene_parts.specs.Checking.{within as within_of, in_range as in_range_of, plan_point as plan_point_of, reaching as reaching_of, height_of};

use crate::faults::PartFault;
use crate::kinds::Field;
use crate::limits::{MAX_COLUMNS, MAX_COORDINATE, MAX_HEIGHT};
use scene_geom::Pt;

/// A number from `low` to `high`, or `OutOfRange`.
pub fn within(field: Field, low: i64, high: i64, value: i64) -> Result<i64, PartFault>
    ensures value { result ≡ within_of field low high value }
    ensures low { IfOk result (λ n. low ≤ℤ n) }
    ensures high { IfOk result (λ n. n ≤ℤ high) }
{
    if low <= value && value <= high {
        Ok(value)
    } else {
        Err(PartFault::OutOfRange { field, value })
    }
}

/// A number from `low` to `high` that is not below 0, or `OutOfRange`.
pub fn in_range(field: Field, low: u32, high: u32, value: i64) -> Result<u32, PartFault>
    ensures value { result ≡ in_range_of field low high value }
    ensures low { IfOk result (λ n. low ≤ n) }
    ensures high { IfOk result (λ n. n ≤ high) }
{
    let n = within(field, i64::from(low), i64::from(high), value)?;
    Ok(n as u32)
}

/// The same of a number that may be left out.
pub fn optional_in_range(
    field: Field,
    low: u32,
    high: u32,
    value: Option<i64>,
) -> Result<Option<u32>, PartFault>
    ensures value { result ≡ optional (in_range_of field low high) value }
    ensures low { IfOk result (λ n. IfSome n (λ n. low ≤ n)) }
    ensures high { IfOk result (λ n. IfSome n (λ n. n ≤ high)) }
{
    match value {
        None => Ok(None),
        Some(value) => Ok(Some(in_range(field, low, high, value)?)),
    }
}

/// The point of the plan with these coordinates, or `OutOfRange` of the first that lies outside.
#[tactic(auto, unfolding(crate::specs::Checking::plan_point))]
pub fn plan_point(across: Field, up: Field, x: i64, y: i64) -> Result<Pt, PartFault>
    ensures { result ≡ plan_point_of across up x y }
{
    let east = within(across, -MAX_COORDINATE, MAX_COORDINATE, x)?;
    let north = within(up, -MAX_COORDINATE, MAX_COORDINATE, y)?;
    Ok(Pt::new(east, north))
}

/// A height above ground in mm, or `OutOfRange`.
#[tactic(auto, unfolding(crate::specs::Checking::height_of))]
pub fn height(h: i64) -> Result<u32, PartFault>
    ensures value { result ≡ height_of h }
    ensures height { IfOk result (λ n. IsHeight n) }
{
    in_range(Field::H, 1, MAX_HEIGHT, h)
}

/// The number of columns of a grid from its first receiver on, the last on the plan, or `OutOfRange`.
pub fn column_count(at: Pt, step: u32, count: i64) -> Result<u32, PartFault>
    requires { step ≤ widest_step }
    ensures value { result ≡ reaching_of Field.Columns at.x step count }
    ensures count { IfOk result (λ n. IsCount n) }
    ensures on_plan { IfOk result (λ n. last_place at.x step n ≤ℤ pos plan_end) }
{
    reaching(Field::Columns, at.x, step, count)
}

/// The number of rows of a grid from its first receiver on, the last on the plan, or `OutOfRange`.
pub fn row_count(at: Pt, step: u32, count: i64) -> Result<u32, PartFault>
    requires { step ≤ widest_step }
    ensures value { result ≡ reaching_of Field.Rows at.y step count }
    ensures count { IfOk result (λ n. IsCount n) }
    ensures on_plan { IfOk result (λ n. last_place at.y step n ≤ℤ pos plan_end) }
{
    reaching(Field::Rows, at.y, step, count)
}

/// The columns or rows of a grid that starts at a coordinate and whose last one lies on the plan, or `OutOfRange`.
#[tactic(auto, unfolding(crate::specs::Checking::reaching))]
fn reaching(field: Field, start: i32, step: u32, count: i64) -> Result<u32, PartFault>
    requires { step ≤ widest_step }
    ensures value { result ≡ reaching_of field start step count }
    ensures count { IfOk result (λ n. IsCount n) }
    ensures on_plan { IfOk result (λ n. last_place start step n ≤ℤ pos plan_end) }
{
    let n = in_range(field, 1, MAX_COLUMNS, count)?;
    if last_at(start, step, n) <= MAX_COORDINATE {
        Ok(n)
    } else {
        Err(PartFault::OutOfRange {
            field,
            value: count,
        })
    }
}

/// The coordinate of the last of `count` columns or rows, in mm.
fn last_at(start: i32, step: u32, count: u32) -> i64
    requires step { step ≤ widest_step }
    requires low { 1 ≤ count }
    requires high { count ≤ most_columns }
    ensures { result ≡ last_place start step count }
{
    i64::from(start) + i64::from(step * (count - 1))
}
