//! The calculation of a bundle.
ghost use Rattle.std.specs.Prelude.{◌≡◌, ◌+◌, map, IfOk};
ghost use Rattle.scene_parts.specs.Parts.{sides_of};
ghost use Rattle.part_grid.specs.Numbered.{numbered};
ghost use Rattle.path_calc.specs.Bundles.{bundle_of};
ghost use Rattle.path_calc.specs.Prepared.{prepared_of};

use crate::bundles::Bundle;
use crate::bundles::steps::Steps;
use crate::direct::propagation::Between;
use crate::energies::path_energies;
use crate::energies::paths::Paths;
use crate::indexed::IndexedScene;
use crate::prepared::{PreparedReceiver, PreparedSource};
use crate::workspace::{PathBuffers, Workspace};
use part_grid::Grid;
use scene_book::Scene;
use scene_parts::{Name, NoMemory, PointSource, Receiver};
use std::alloc::Global;
use std::sync::ledger::Ledger;

/// All that a receiver has from a source of a scene. One step is counted, also where there is no memory for the name or
/// for what screens the path.
pub fn bundle<L: Ledger>(
    alloc: Global,
    scene: &Scene,
    source: &PointSource,
    receiver: &Receiver,
    steps: &mut Steps<L>,
) -> Result<Bundle, NoMemory>
    ensures value { IfOk result (λ bundle. bundle ≡ bundle_of scene.now source.now receiver.now) }
    ensures step { steps.new ≡ steps.old + 1 }
{
    prepared_bundle(alloc, &IndexedScene::plain(scene), source, receiver, steps)
}

/// The same, by an index of all sides of the obstacles of the scene.
pub fn bundle_near<L: Ledger>(
    alloc: Global,
    grid: &Grid,
    scene: &Scene,
    source: &PointSource,
    receiver: &Receiver,
    steps: &mut Steps<L>,
) -> Result<Bundle, NoMemory>
    requires stands { grid.now ≡ numbered (map sides_of scene.now.obstacles) }
    ensures value { IfOk result (λ bundle. bundle ≡ bundle_of scene.now source.now receiver.now) }
    ensures step { steps.new ≡ steps.old + 1 }
{
    let scene = IndexedScene::by(scene, grid);
    prepared_bundle(alloc, &scene, source, receiver, steps)
}

/// The same, of a source and a receiver that aren't prepared yet.
fn prepared_bundle<L: Ledger>(
    alloc: Global,
    scene: &IndexedScene<'_>,
    source: &PointSource,
    receiver: &Receiver,
    steps: &mut Steps<L>,
) -> Result<Bundle, NoMemory>
    ensures value { IfOk result (λ bundle. bundle ≡ bundle_of scene.now source.now receiver.now) }
    ensures step { steps.new ≡ steps.old + 1 }
{
    let from = PreparedSource::of(source);
    let to = PreparedReceiver::of(receiver);
    let mut workspace = Workspace::new(alloc);
    bundle_between(
        alloc,
        scene,
        source,
        &from,
        receiver,
        &to,
        &mut workspace,
        steps,
    )
}

/// The same, of a source and a receiver that are prepared: once, and not for each of their paths. The workspace is
/// lent to the calculation.
pub fn bundle_between<L: Ledger>(
    alloc: Global,
    scene: &IndexedScene<'_>,
    source: &PointSource,
    from: &PreparedSource,
    receiver: &Receiver,
    to: &PreparedReceiver,
    workspace: &mut Workspace,
    steps: &mut Steps<L>,
) -> Result<Bundle, NoMemory>
    requires source { from.now ≡ prepared_of source.now }
    requires receiver { to.now ≡ receiver.now.h }
    ensures value { IfOk result (λ bundle. bundle ≡ bundle_of scene.now source.now receiver.now) }
    ensures step { steps.new ≡ steps.old + 1 }
{
    steps.tick();
    let buffers = &mut workspace.paths;
    calculated(alloc, scene, source, from, receiver, to, buffers)
}

/// What that path comes to, whose step is counted.
fn calculated(
    alloc: Global,
    scene: &IndexedScene<'_>,
    source: &PointSource,
    from: &PreparedSource,
    receiver: &Receiver,
    to: &PreparedReceiver,
    buffers: &mut PathBuffers,
) -> Result<Bundle, NoMemory>
    requires source { from.now ≡ prepared_of source.now }
    requires receiver { to.now ≡ receiver.now.h }
    ensures { IfOk result (λ bundle. bundle ≡ bundle_of scene.now source.now receiver.now) }
{
    let name = Name::from_vec(source.name.items().to_vec(alloc)?);
    let between = Between::of(alloc, scene, source, from, receiver, to);
    let path = between.direct_path();
    let mut paths = Paths::in_the_open(&between, &path);
    paths.find_all(&between, &path, buffers)?;
    let energies = path_energies(&paths, from);
    buffers.take_back(&mut paths);
    let segs = buffers.trace.copied(alloc)?;
    Ok(Bundle {
        source: name,
        at: source.at,
        h: source.h,
        segs,
        energy: energies.bands,
        long: energies.long,
    })
}
