//! The walk along a loop.
ghost use Rattle.std.specs.Prelude.{◌≡◌, ◌++◌, [], ◌∷◌, true, length, map, filter, IfOk, OnOk};
ghost use Rattle.cell_loops.specs.Boundary.{bounds, step_count, loop_from, turns_at, points_of};
ghost use Rattle.cell_loops.specs.inner.Steps.{IsSmall, IsUnwalked, IsWalked};

use crate::corners::{Corner, Edge};
use crate::region::Region;
use crate::shapes::Loop;
use std::alloc::{AllocError, Global};

/// The loop that begins with an edge. Its edges are marked.
pub fn follow(
    alloc: Global,
    region: &Region,
    walked: &mut [bool],
    begin: Edge,
) -> Result<Loop, AllocError>
    requires small { IsSmall region.now }
    requires bounds { bounds region.now begin ≡ true }
    requires whole { length walked.old ≡ step_count region.now }
    requires unwalked { IsUnwalked region.now walked.old begin }
    ensures points { IfOk result (λ line. line ≡ points_of region.now (loop_from region.now begin)) }
    ensures walked { OnOk result (IsWalked region.now begin walked.old walked.new) }
{
    let mut points = Vec::new(alloc);
    let mut edge = begin;
    loop {
        walked[region.place(edge)] = true;
        push_turn(region, edge, &mut points)?;
        let next = region.next(edge);
        if walked[region.place(next)] {
            return Ok(Loop::from_vec(points));
        }
        edge = next;
    }
}

/// Adds where an edge begins, if a loop turns there.
fn push_turn(region: &Region, edge: Edge, points: &mut Vec<Corner>) -> Result<(), AllocError>
    ensures { OnOk result (points.new.items
        ≡ points.old.items ++ points_of region.now (edge ∷ [])) }
{
    if region.turns_at(edge) {
        points.push(edge.from)?;
    }
    Ok(())
}
