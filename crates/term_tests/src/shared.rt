//! What the tests share.

ghost use Rattle.path_shape.specs.Shape.{IsPath};

use fix_interval::{Iv, hull, ratio};
use path_shape::Path;
use scene_geom::{Pt, Side, is_short, on_one_side};
use scene_parts::{PlainName, RawPoints, RawPt};
use std::alloc::{AllocError, Global};
use std::process::Abort;

/// Both coordinates and the height of an end of a path, in mm.
pub(crate) type End = (i64, i64, u32);

/// The two ends of the side of a wall, in mm.
pub(crate) type Wall = [(i64, i64); 2];

/// A point of the plan, in mm.
pub(crate) fn place((x, y): (i64, i64)) -> Pt {
    Pt::new(
        x.clamp(-4_000_000, 4_000_000),
        y.clamp(-4_000_000, 4_000_000),
    )
}

/// The interval between two ends in units of 2^-32.
pub(crate) fn between((lo, hi): (i128, i128)) -> Iv {
    let unit = 1 << 32;
    hull(ratio(lo, unit), ratio(hi, unit))
}

/// A name for each part.
pub(crate) fn name(alloc: Global) -> Result<PlainName, AllocError> {
    Ok(PlainName::from_vec(b"a".to_vec(alloc)?))
}

/// The outline of these corners, in mm.
pub(crate) fn outline(alloc: Global, corners: &[(i64, i64)]) -> Result<RawPoints, AllocError> {
    let mut points = Vec::new(alloc);
    for (x, y) in corners {
        points.push(RawPt { x: *x, y: *y })?;
    }
    Ok(RawPoints::from_vec(points))
}

/// The direct path between two ends.
pub(crate) fn direct(source: End, receiver: End) -> Path
    ensures { IsPath result }
{
    let (sx, sy, hs) = source;
    let (rx, ry, hr) = receiver;
    Path::direct(place((sx, sy)), hs, place((rx, ry)), hr)
}

/// The side of a wall.
fn side([from, to]: Wall) -> Side {
    Side {
        from: place(from),
        to: place(to),
    }
}

/// The path between two ends by way of a wall, whose side is short enough and has both ends on one side.
pub(crate) fn reflected(rt: &impl Abort, source: End, receiver: End, wall: Wall) -> Path
    ensures { IsPath result }
{
    let (sx, sy, hs) = source;
    let (rx, ry, hr) = receiver;
    let (side, s, r) = (side(wall), place((sx, sy)), place((rx, ry)));
    assert!(rt; is_short(side));
    assert!(rt; on_one_side(side, s, r));
    Path::reflected(side, s, hs, r, hr)
}

pub(crate) fn has_ends(rt: &impl Abort, found: Iv, (lo, hi): (i128, i128)) {
    assert_eq!(rt; (found.low(), found.high()), (Some(lo), Some(hi)));
}
