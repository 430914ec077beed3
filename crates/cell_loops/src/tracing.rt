//! The loops of a set.
ghost use Rattle.std.specs.Prelude.{◌≡◌, IfOk, map};
ghost use Rattle.cell_loops.specs.Plane.{plane_of};
ghost use Rattle.cell_loops.specs.Boundary.{loops_of, points_of};
ghost use Rattle.cell_loops.specs.Separation.{Separates, IsOrdered, LouderInside, QuieterOutside, SameWhereSure};
ghost use Rattle.cell_loops.specs.Steps.{IsGrid};
ghost use Rattle.cell_loops.specs.inner.Steps.{IsSmall};

use crate::gathering::boundary;
use crate::kinds::Family;
use crate::region::Region;
use crate::shapes::{Cells, Loops};
use crate::walking::follow;
use std::alloc::{AllocError, Global};

/// The loops round the cells of a grid that a family bounds.
pub fn loops(
    alloc: Global,
    columns: u32,
    rows: u32,
    cells: &Cells,
    family: Family,
) -> Result<Loops, AllocError>
    requires { IsGrid columns rows cells.now }
    ensures loops { let set = plane_of columns rows cells.now family in
        IfOk result (λ loops. loops ≡ map (points_of set) (loops_of set)) }

    // What holds of the loops that the first clause names, whether there was memory or not.
    ensures separation { Separates (plane_of columns rows cells.now family) }
    ensures order { IsOrdered (plane_of columns rows cells.now family) }
    ensures inside { LouderInside columns rows cells.now }
    ensures outside { QuieterOutside columns rows cells.now }
    ensures sure { SameWhereSure columns rows cells.now }
{
    trace(alloc, &Region::new(columns, rows, cells.items(), family))
}

/// The loops of a set.
fn trace(alloc: Global, region: &Region) -> Result<Loops, AllocError>
    requires { IsSmall region.now }
    ensures { IfOk result (λ loops. loops ≡ map (points_of region.now) (loops_of region.now)) }
{
    let mut walked = vec![in alloc; false; region.step_count()]?;
    let mut loops = Vec::new(alloc);
    let edges = boundary(alloc, region)?;
    for begin in &edges {
        if walked[region.place(*begin)] {
            continue;
        }
        loops.push(follow(alloc, region, walked.as_mut_slice(), *begin)?)?;
    }
    Ok(Loops::from_vec(loops))
}
