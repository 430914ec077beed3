//! The sides of barriers and buildings.
ghost use Rattle.std.specs.Prelude.{◌≡◌, ◌≤◌, ◌<◌, length, Some, slice_get};
ghost use Rattle.scene_parts.specs.Limits.{most_corners};
ghost use Rattle.scene_parts.specs.Parts.{IsObstacle, sides_of};
ghost use Rattle.scene_parts.specs.Sides.{sides_in};

use crate::kinds::Shape;
use crate::parts::Obstacle;
use scene_geom::{Pt, Side};

/// The number of sides: a barrier runs from point to point, a building goes back to its first corner.
pub fn sides(obstacle: &Obstacle) -> u32
    ensures count { result ≡ length (sides_of obstacle.now) }
    ensures kept { IsObstacle obstacle.now }
{
    let points = obstacle.points.items();
    side_count(obstacle.shape, points)
}

/// A side by its number, from 0.
pub fn side_of(obstacle: &Obstacle, i: u32) -> Side
    requires { i < length (sides_of obstacle.now) }
    ensures { slice_get (sides_of obstacle.now) i ≡ Some result }
{
    let points = obstacle.points.items();
    side_at(obstacle.shape, points, i)
}

/// The number of sides of a shape with these corners.
pub fn side_count(shape: Shape, corners: &[Pt]) -> u32
    requires { length corners.now ≤ most_corners }
    ensures { result ≡ length (sides_in shape corners.now) }
{
    let corners = corners.len() as u32;
    match shape {
        Shape::Barrier => corners.saturating_sub(1),
        Shape::Building => corners,
    }
}

/// A side of a shape with these corners by its number, from 0.
pub fn side_at(shape: Shape, corners: &[Pt], i: u32) -> Side
    requires few { length corners.now ≤ most_corners }
    requires within { i < length (sides_in shape corners.now) }
    ensures { slice_get (sides_in shape corners.now) i ≡ Some result }
{
    let i = i as usize;
    let from = corners[i];
    let to = match shape {
        Shape::Barrier => corners[i + 1],
        Shape::Building if i + 1 < corners.len() => corners[i + 1],
        Shape::Building => corners[0],
    };
    Side { from, to }
}
