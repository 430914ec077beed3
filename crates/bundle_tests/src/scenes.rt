//! Edits of scenes.
use scene_book::{Edit, Scene};
use scene_parts::{RawPart, RawPoints, RawPt, check};
use std::alloc::Global;

/// The outline of these corners, in mm.
pub(crate) fn outline(alloc: Global, places: &[(i64, i64)]) -> Option<RawPoints> {
    let mut points = Vec::new(alloc);
    for (x, y) in places {
        points.push(RawPt { x: *x, y: *y }).ok()?;
    }
    Some(RawPoints::from_vec(points))
}

/// The edit that puts a part.
pub(crate) fn put(alloc: Global, raw: RawPart) -> Option<Edit> {
    match check(alloc, raw) {
        Ok(checked) => Some(Edit::from(checked)),
        Err(_) => None,
    }
}

fn takes(alloc: Global, scene: &mut Scene, edit: &Edit) -> bool {
    scene.apply(alloc, edit).is_ok()
}

/// Does what an edit says, where it is there and the scene takes it. Each step is a function of its own: the proof of a
/// function grows fast with the values that it has to drop.
pub(crate) fn take(alloc: Global, scene: &mut Scene, edit: Option<Edit>) -> Option<()> {
    let edit = edit?;
    takes(alloc, scene, &edit).then_some(())
}
