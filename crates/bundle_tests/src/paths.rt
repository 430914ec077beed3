//! Bundles, with steps that nobody counts.
ghost use Rattle.std.specs.Prelude.{◌≡◌, ◌<◌, map};
ghost use Rattle.scene_parts.specs.Parts.{sides_of};
ghost use Rattle.part_grid.specs.Numbered.{numbered};

use path_calc::{Bundle, Grid, NoMemory, Steps, bundle, bundle_near};
use scene_book::Scene;
use scene_parts::{PointSource, Receiver};
use sight_cut::grid_of;
use std::alloc::Global;
use std::marker::Brand;
use std::sync::ledger::{Blank, Ledger};

fn counted<L: Ledger>(
    alloc: Global,
    scene: &Scene,
    source: &PointSource,
    receiver: &Receiver,
    blank: Blank,
) -> Result<Bundle, NoMemory>
    requires name { blank.name ≡ L.name }
    requires parts { blank.parts ≡ L.parts }
    requires some { 0 < blank.parts }
{
    let mut steps = Steps::<L>::of(blank);
    bundle(alloc, scene, source, receiver, &mut steps)
}

/// The bundle of a source and a receiver in a scene, where there is memory.
pub(crate) fn path(
    alloc: Global,
    scene: &Scene,
    source: &PointSource,
    receiver: &Receiver,
) -> Option<Bundle> {
    counted::<Brand>(alloc, scene, source, receiver, Blank::new(1)).ok()
}

fn counted_near<L: Ledger>(
    alloc: Global,
    grid: &Grid,
    scene: &Scene,
    source: &PointSource,
    receiver: &Receiver,
    blank: Blank,
) -> Result<Bundle, NoMemory>
    requires stands { grid.now ≡ numbered (map sides_of scene.now.obstacles) }
    requires name { blank.name ≡ L.name }
    requires parts { blank.parts ≡ L.parts }
    requires some { 0 < blank.parts }
{
    let mut steps = Steps::<L>::of(blank);
    bundle_near(alloc, grid, scene, source, receiver, &mut steps)
}

fn path_by(
    alloc: Global,
    grid: &Grid,
    scene: &Scene,
    source: &PointSource,
    receiver: &Receiver,
) -> Option<Bundle>
    requires { grid.now ≡ numbered (map sides_of scene.now.obstacles) }
{
    counted_near::<Brand>(alloc, grid, scene, source, receiver, Blank::new(1)).ok()
}

/// The same by an index of the obstacles of the scene.
pub(crate) fn path_near(
    alloc: Global,
    scene: &Scene,
    source: &PointSource,
    receiver: &Receiver,
) -> Option<Bundle> {
    let grid = grid_of(alloc, scene.obstacles()).ok()?;
    path_by(alloc, &grid, scene, source, receiver)
}
