//! What is calculated once of each source of a scene, and serves all receivers.
ghost use Rattle.std.specs.Prelude.{◌≡◌, IfOk, map};
ghost use Rattle.path_calc.specs.Prepared.{prepared_of};

use path_calc::PreparedSource;
use scene_book::Scene;
use scene_parts::NoMemory;
use std::alloc::Global;

/// The sources of a scene, each prepared, in their order.
pub fn prepare(alloc: Global, scene: &Scene) -> Result<Vec<PreparedSource>, NoMemory>
    ensures { IfOk result (λ prepared. prepared.items ≡ map prepared_of scene.now.sources) }
{
    let sources = scene.sources();
    let mut prepared = Vec::with_capacity(alloc, sources.len())?;
    for source in sources {
        prepared.push(PreparedSource::of(source))?;
    }
    Ok(prepared)
}
