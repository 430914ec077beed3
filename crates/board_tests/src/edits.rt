//! Edits of boards, each of which is there where there is memory.
ghost use Rattle.std.specs.Prelude.{◌≡◌};

use map_lock::{EditorSeat, MapLock};
use scene_book::Edit;
use scene_geom::Pt;
use scene_parts::{
    Kind, Name, Part, PlainName, PointSource, RawPart, RawPoints, RawPt, Receiver, check,
};
use std::alloc::Global;
use std::sync::Wait;
use std::thread::Threads;

/// The source `s`.
pub(crate) fn source(alloc: Global) -> Option<Edit> {
    Some(Edit::Put(Part::Source(PointSource {
        name: Name::from_vec(b"s".to_vec(alloc).ok()?),
        kind: Kind::Industry,
        at: Pt::new(0, 0),
        h: 2000,
        lw: [None, None, None, None, Some(10_000), None, None, None],
        dc: 0,
    })))
}

/// The receiver `r`, so far in the east of the source.
pub(crate) fn receiver(alloc: Global, x: i64) -> Option<Edit> {
    Some(Edit::Put(Part::Receiver(Receiver {
        name: Name::from_vec(b"r".to_vec(alloc).ok()?),
        at: Pt::new(x.clamp(0, 200_000), 0),
        h: 2000,
    })))
}

/// The outline of these corners, in mm.
fn outline(alloc: Global, corners: &[(i64, i64)]) -> Option<RawPoints> {
    let mut points = Vec::new(alloc);
    for (x, y) in corners {
        points.push(RawPt { x: *x, y: *y }).ok()?;
    }
    Some(RawPoints::from_vec(points))
}

/// The edit that puts a part.
pub(crate) fn put(alloc: Global, raw: RawPart) -> Option<Edit> {
    match check(alloc, raw) {
        Ok(checked) => Some(Edit::from(checked)),
        Err(_) => None,
    }
}

/// A building with these corners.
pub(crate) fn building(
    alloc: Global,
    name: PlainName,
    corners: &[(i64, i64)],
    h: i64,
) -> Option<Edit> {
    let points = outline(alloc, corners)?;
    put(
        alloc,
        RawPart::Building {
            name,
            points,
            h,
            rho: 0,
        },
    )
}

/// A barrier from end to end.
pub(crate) fn barrier(alloc: Global, ends: [(i64, i64); 2], h: i64) -> Option<Edit> {
    let points = outline(alloc, &ends)?;
    let name = PlainName::from_vec(b"barrier".to_vec(alloc).ok()?);
    put(
        alloc,
        RawPart::Barrier {
            name,
            points,
            h,
            density: 20,
            rho: 0,
        },
    )
}

// An edit that is accepted.
pub(crate) fn edit<R: Threads + Wait + Sync>(
    rt: &R,
    alloc: Global,
    lock: &MapLock,
    editor: &mut EditorSeat,
    edit: Option<Edit>,
) -> Option<()>
    requires own { editor.old.table ≡ lock.now }
    ensures own { editor.new.table ≡ lock.now }
    ensures parts { editor.new.parts ≡ editor.old.parts }
{
    let edit = edit?;
    if lock.edit(rt, alloc, editor, edit).is_ok() {
        Some(())
    } else {
        None
    }
}

// Two edits that are accepted, one behind the other.
pub(crate) fn edit_two<R: Threads + Wait + Sync>(
    rt: &R,
    alloc: Global,
    lock: &MapLock,
    editor: &mut EditorSeat,
    first: Option<Edit>,
    second: Option<Edit>,
) -> Option<()>
    requires own { editor.old.table ≡ lock.now }
    ensures own { editor.new.table ≡ lock.now }
    ensures parts { editor.new.parts ≡ editor.old.parts }
{
    edit(rt, alloc, lock, editor, first)?;
    edit(rt, alloc, lock, editor, second)
}
