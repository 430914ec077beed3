//! The edges of a set, in their order.
ghost use Rattle.std.specs.Prelude.{◌≡◌, ◌++◌, IfOk, OnOk, filter};
ghost use Rattle.cell_loops.specs.Boundary.{bounds, steps_at, steps_along, boundary_of};

use crate::corners::{Corner, Edge, Way};
use crate::region::Region;
use std::alloc::{AllocError, Global};

/// All edges of a set.
#[tactic(auto, unfolding(crate::specs::Boundary::boundary_of))]
pub fn boundary(alloc: Global, region: &Region) -> Result<Vec<Edge>, AllocError>
    ensures { IfOk result (λ edges. edges.items ≡ boundary_of region.now) }
{
    let mut edges = Vec::new(alloc);
    for y in 0..region.rows() + 1 {
        push_row(region, y, &mut edges)?;
    }
    Ok(edges)
}

/// Adds the edges that begin in a row of corners.
fn push_row(region: &Region, y: u32, edges: &mut Vec<Edge>) -> Result<(), AllocError>
    ensures { OnOk result (edges.new.items
        ≡ edges.old.items ++ filter (bounds region.now) (steps_along region.now y)) }
{
    for x in 0..region.columns() + 1 {
        push_corner(region, x, y, edges)?;
    }
    Ok(())
}

/// Adds the edges that begin at a corner.
fn push_corner(region: &Region, x: u32, y: u32, edges: &mut Vec<Edge>) -> Result<(), AllocError>
    ensures { OnOk result (edges.new.items
        ≡ edges.old.items ++ filter (bounds region.now) (steps_at y x)) }
{
    let from = Corner { x, y };
    for way in [Way::East, Way::North, Way::West, Way::South] {
        let edge = Edge { from, way };
        if region.bounds(edge) {
            edges.push(edge)?;
        }
    }
    Ok(())
}
