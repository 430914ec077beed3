//! Obstacles, checked.
use scene_parts::{Checked, Obstacle, Part, PlainName, RawPart, RawPoints, RawPt, Shape, check};
use std::alloc::{AllocError, Global};

/// A shape, its corners, its height in mm, and what it reflects per mille.
pub(crate) type Wall = (Shape, &'static [(i64, i64)], i64, i64);

/// The obstacles that are accepted of these.
pub(crate) fn obstacles(alloc: Global, walls: &[Wall]) -> Result<Vec<Obstacle>, AllocError> {
    let mut obstacles = Vec::new(alloc);
    for (shape, corners, h, rho) in walls {
        add_obstacle(alloc, &mut obstacles, *shape, corners, (*h, *rho))?;
    }
    Ok(obstacles)
}

/// Adds an obstacle with these corners, of this height and reflection, if it is accepted.
pub(crate) fn add_obstacle(
    alloc: Global,
    obstacles: &mut Vec<Obstacle>,
    shape: Shape,
    corners: &[(i64, i64)],
    (h, rho): (i64, i64),
) -> Result<(), AllocError> {
    let points = outline(alloc, corners)?;
    let name = PlainName::from_vec(b"a".to_vec(alloc)?);
    add_accepted(alloc, obstacles, raw(shape, name, points, h, rho))
}

/// The outline of these corners, in mm.
fn outline(alloc: Global, corners: &[(i64, i64)]) -> Result<RawPoints, AllocError> {
    let mut points = Vec::new(alloc);
    for (x, y) in corners {
        points.push(RawPt { x: *x, y: *y })?;
    }
    Ok(RawPoints::from_vec(points))
}

/// Adds an obstacle that is accepted.
fn add_accepted(
    alloc: Global,
    obstacles: &mut Vec<Obstacle>,
    raw: RawPart,
) -> Result<(), AllocError> {
    if let Ok(Checked::Part(Part::Obstacle(obstacle))) = check(alloc, raw) {
        obstacles.push(obstacle)?;
    }
    Ok(())
}

fn raw(shape: Shape, name: PlainName, points: RawPoints, h: i64, rho: i64) -> RawPart {
    match shape {
        Shape::Barrier => RawPart::Barrier {
            name,
            points,
            h,
            density: 10,
            rho,
        },
        Shape::Building => RawPart::Building {
            name,
            points,
            h,
            rho,
        },
    }
}
