//! Outlines, as lines give them.
use scene_parts::{RawPoints, RawPt};
use std::alloc::{AllocError, Global};

/// The outline of these corners, in mm.
pub(crate) fn outline(alloc: Global, places: &[(i64, i64)]) -> Result<RawPoints, AllocError> {
    let mut points = Vec::new(alloc);
    for (x, y) in places {
        points.push(RawPt { x: *x, y: *y })?;
    }
    Ok(RawPoints::from_vec(points))
}
