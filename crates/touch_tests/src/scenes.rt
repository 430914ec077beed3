//! Edits of scenes.
use scene_book::Edit;
use scene_parts::{RawPart, RawPoints, RawPt, check};
use std::alloc::Global;

/// The outline of these corners, in mm.
pub(crate) fn outline(alloc: Global, places: &[(i64, i64)]) -> Option<RawPoints> {
    let mut points = Vec::new(alloc);
    for (x, y) in places {
        points.push(RawPt { x: *x, y: *y }).ok()?;
    }
    Some(RawPoints::from_vec(points))
}

/// The edit that puts a part.
pub(crate) fn put(alloc: Global, raw: RawPart) -> Option<Edit> {
    match check(alloc, raw) {
        Ok(checked) => Some(Edit::from(checked)),
        Err(_) => None,
    }
}
