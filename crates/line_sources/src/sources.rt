//! The sources of a line, as many as it takes to know that a scene hasn't room for more.
ghost use Rattle.std.specs.Prelude.{◌≡◌, ◌≤◌, ◌<◌, ◌++◌, ◌∷◌, [], length, take, filter, IfOk, OnOk, vec_len};
ghost use Rattle.line_sources.specs.Legs.{is_leg as is_leg_of};
ghost use Rattle.line_sources.specs.Pieces.{source_at, sources_on, sources_along, sources_of};

use crate::legs::{CutLeg, is_leg};
use crate::names::numbered;
use crate::places::place;
use command_lines::LineSpec;
use scene_geom::Side;
use scene_parts::{NoMemory, PointSource};
use std::alloc::Global;

/// One more than the sources that a scene may have: a line of so many is refused, and its further ones are never made.
const ENOUGH: u32 = 129;

/// The sources of a line, or the first 129 where there are more.
pub(crate) fn first_sources(alloc: Global, line: &LineSpec) -> Result<Vec<PointSource>, NoMemory>
    ensures { IfOk result (λ sources. sources.items ≡ take ENOUGH (sources_of line.now)) }
{
    let mut sources = Vec::new(alloc);
    let Some((first, rest)) = line.points.items().split_first() else {
        return Ok(sources);
    };
    let mut from = *first;
    for to in rest {
        let side = Side { from, to: *to };
        add_side(alloc, line, side, &mut sources)?;
        from = *to;
    }
    Ok(sources)
}

/// Adds the sources of a side, where it is a leg and there aren't enough yet.
fn add_side(
    alloc: Global,
    line: &LineSpec,
    side: Side,
    sources: &mut Vec<PointSource>,
) -> Result<(), NoMemory>
    requires { vec_len sources.old ≤ ENOUGH }
    ensures { OnOk result
        (sources.new.items ≡ take ENOUGH (sources.old.items
        ++ sources_along line.now (length sources.old.items) (filter is_leg_of (side ∷ [])))) }
{
    if sources.len() == ENOUGH as usize || !is_leg(side) {
        return Ok(());
    }
    let leg = CutLeg::of(line, side);
    add_leg(alloc, line, &leg, sources)
}

/// Adds the sources of a leg until there are enough.
fn add_leg(
    alloc: Global,
    line: &LineSpec,
    leg: &CutLeg,
    sources: &mut Vec<PointSource>,
) -> Result<(), NoMemory>
    requires { vec_len sources.old ≤ ENOUGH }
    ensures { OnOk result
        (sources.new.items ≡ take ENOUGH (sources.old.items
        ++ sources_on line.now leg.now (length sources.old.items))) }
{
    let first = sources.len() as u32;
    for i in 0..leg.count.min(ENOUGH - first) {
        let source = source(alloc, line, leg, first + i, i)?;
        sources.push(source)?;
    }
    Ok(())
}

/// The source of a piece of a leg. The number is that of the piece in the whole line.
fn source(
    alloc: Global,
    line: &LineSpec,
    leg: &CutLeg,
    number: u32,
    i: u32,
) -> Result<PointSource, NoMemory>
    requires number { number < ENOUGH }
    requires within { i < leg.now.count }
    ensures { IfOk result (λ made. made ≡ source_at line.now leg.now number i) }
{
    let name = numbered(alloc, line.name.items(), number)?;
    let at = place(leg.side, i, leg.count);
    Ok(PointSource::of(name, line.kind, at, line.h, leg.lw, line.dc))
}
