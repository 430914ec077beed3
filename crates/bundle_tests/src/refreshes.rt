//! A refresh with ample memory.
ghost use Rattle.std.specs.Prelude.{◌≡◌, ◌<◌};

use crate::scenes::take;
use path_cache::{Steps, refresh};
use scene_book::{Edit, Scene};
use scene_geom::Pt;
use scene_parts::{Kind, Name, Part, PointSource, Receiver};
use std::alloc::Global;
use std::marker::Brand;
use std::sync::ledger::{Blank, Ledger};

fn source(alloc: Global) -> Option<Edit> {
    Some(Edit::Put(Part::Source(PointSource {
        name: Name::from_vec(b"s".to_vec(alloc).ok()?),
        kind: Kind::Industry,
        at: Pt::new(0, 0),
        h: 2000,
        lw: [Some(9500), None, None, None, None, None, None, None],
        dc: 0,
    })))
}

/// A scene of one source.
fn scene(alloc: Global) -> Option<Scene> {
    let mut scene = Scene::empty(alloc).ok()?;
    take(alloc, &mut scene, source(alloc))?;
    Some(scene)
}

fn receiver(alloc: Global) -> Option<Receiver> {
    Some(Receiver {
        name: Name::from_vec(b"r".to_vec(alloc).ok()?),
        at: Pt::new(4_000_000, 0),
        h: 2000,
    })
}

/// How many bundles a receiver has in a scene, where nothing was kept.
fn counted<L: Ledger>(
    alloc: Global,
    scene: &Scene,
    receiver: &Receiver,
    blank: Blank,
) -> Option<usize>
    requires name { blank.name ≡ L.name }
    requires parts { blank.parts ≡ L.parts }
    requires some { 0 < blank.parts }
{
    let mut steps = Steps::<L>::of(blank);
    let bundles = refresh(alloc, scene, receiver, &[], &[], &mut steps).ok()?;
    Some(bundles.len())
}

/// The same, with steps that nobody counts.
fn count(alloc: Global, scene: &Scene, receiver: &Receiver) -> Option<usize> {
    counted::<Brand>(alloc, scene, receiver, Blank::new(1))
}

fn count_in(alloc: Global, scene: &Scene) -> Option<usize> {
    let receiver = receiver(alloc)?;
    count(alloc, scene, &receiver)
}

fn count_at(alloc: Global) -> Option<usize> {
    let scene = scene(alloc)?;
    count_in(alloc, &scene)
}

#[test]
fn one_bundle_within_reach(rt: HostRuntime) {
    assert_eq!(rt; count_at(rt.alloc()), Some(1));
}
