//! Arrays of points.
ghost use Rattle.std.specs.Prelude.{◌≡◌, IfOk};
ghost use Rattle.serde_json.specs.View.{view};
ghost use Rattle.command_lines.specs.Values.{point_of, points_of};

use crate::values::arrays::items_in;
use scene_parts::{NoMemory, RawPoints, RawPt};
use serde_json::Value;
use std::alloc::Global;

/// The points of an array of points.
#[tactic(auto, unfolding(crate::specs::Values::points_of))]
pub fn points_in(alloc: Global, value: &Value) -> Result<Option<RawPoints>, NoMemory>
    ensures { IfOk result (λ points. points ≡ points_of (view value.now)) }
{
    let Some(items) = items_in(value) else {
        return Ok(None);
    };
    let mut points = Vec::with_capacity(alloc, items.len())?;
    for item in items {
        let Some(point) = point_in(item) else {
            return Ok(None);
        };
        points.push(point)?;
    }
    Ok(Some(RawPoints::from_vec(points)))
}

/// The point of an array of exactly two whole numbers.
#[tactic(auto, unfolding(crate::specs::Values::point_of))]
fn point_in(value: &Value) -> Option<RawPt>
    ensures { result ≡ point_of (view value.now) }
{
    let [x, y] = items_in(value)? else {
        return None;
    };
    Some(RawPt {
        x: x.as_i64()?,
        y: y.as_i64()?,
    })
}
