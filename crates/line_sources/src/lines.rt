//! Lines put into a scene and taken out of it.
ghost use Rattle.std.specs.Prelude.{◌≡◌, ◌++◌, IfOk, IsOk, IsTrue};
ghost use Rattle.scene_geom.specs.declared.plan.Side.{Side};
ghost use Rattle.scene_parts.specs.Answers.{MatchesUnlessMemory};
ghost use Rattle.scene_book.specs.Applying.{lacks_memory, applied};
ghost use Rattle.line_sources.specs.Legs.{is_leg};
ghost use Rattle.line_sources.specs.Tiles.{IsTiled};
ghost use Rattle.line_sources.specs.Pieces.{line_edits_of, unline_edits_of, accepted, puts, removes};

use crate::edits::{LineEdits, add_puts, add_removes, try_all};
use crate::removals::beyond;
use crate::sources::first_sources;
use command_lines::LineSpec;
use scene_book::{EditFault, Scene};
use scene_parts::{Name, NoMemory, PointSource};
use std::alloc::Global;

/// The edits that put a line's pieces and then take out the pieces of its name that it had more of, or the first fault that
/// a scene answers when they are applied in this order. The scene stays as it is.
pub fn pieces(alloc: Global, line: &LineSpec, scene: &Scene) -> Result<LineEdits, EditFault>
    ensures value { MatchesUnlessMemory lacks_memory result (line_edits_of line.now scene.now) }
    ensures accepted { IfOk result (λ edits. IsOk (applied edits scene.now)) }

    // Each leg has as few pieces as are short enough. Their power is never above that of the line, and less than 0.02 dB
    // below it.
    ensures tiled { (leg : Side) → IsTrue (is_leg leg) → IsTiled line.now leg }
{
    let name = line.name.items();
    let news = first_sources(alloc, line)?;
    let others = beyond(alloc, name, &news, scene.sources())?;
    accepted_edits(alloc, news, others, scene)
}

/// The edits that put these sources and then take out those of these names, or the first fault.
fn accepted_edits(
    alloc: Global,
    news: Vec<PointSource>,
    others: Vec<Name>,
    scene: &Scene,
) -> Result<LineEdits, EditFault>
    ensures value { MatchesUnlessMemory lacks_memory result
        (accepted (puts news.items ++ removes others.items) scene.now) }
    ensures accepted { IfOk result (λ edits. IsOk (applied edits scene.now)) }
{
    let mut edits = Vec::new(alloc);
    add_puts(&mut edits, news)?;
    add_removes(&mut edits, others)?;
    try_all(alloc, &edits, scene)?;
    Ok(LineEdits::from_vec(edits))
}

/// The edits that take out all pieces of a line, in the order of the scene, or `NoSuchName` where there are none.
pub fn unline(alloc: Global, name: &Name, scene: &Scene) -> Result<LineEdits, EditFault>
    ensures value { MatchesUnlessMemory lacks_memory result (unline_edits_of name.now scene.now) }
    ensures accepted { IfOk result (λ edits. IsOk (applied edits scene.now)) }
{
    let names = beyond(alloc, name.items(), &[], scene.sources())?;
    if names.is_empty() {
        return Err(EditFault::NoSuchName {
            name: copy_of(name)?,
        });
    }
    let mut edits = Vec::new(alloc);
    add_removes(&mut edits, names)?;
    Ok(LineEdits::from_vec(edits))
}

fn copy_of(name: &Name) -> Result<Name, NoMemory>
    ensures { IfOk result (λ copied. copied ≡ name.now) }
{
    Ok(name.clone()?)
}
