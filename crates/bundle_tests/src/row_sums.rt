//! A row whose sums are refreshed as sources come, go and move. The levels were calculated by an independent program.
ghost use Rattle.std.specs.Prelude.{◌≡◌, ◌<◌, IfSome, length};
ghost use Rattle.path_cache.specs.Standing.{StandAsSources};

use crate::scenes::take;
use path_cache::{Renewal, RowSums, Steps, WithSums, prepare, refresh_sums, renew};
use path_calc::IndexedScene;
use scene_book::{Edit, Scene};
use scene_geom::Pt;
use scene_parts::{Kind, Name, Part, PointSource, Receiver};
use std::alloc::Global;
use std::marker::Brand;
use std::sync::ledger::{Blank, Ledger};

/// The ends of a level, in units of 2^-32 dB.
type Ends = (Option<i128>, Option<i128>);

fn source(name: Name, at: Pt) -> Edit {
    Edit::Put(Part::Source(PointSource {
        name,
        kind: Kind::Industry,
        at,
        h: 2000,
        lw: [Some(9500), None, None, None, Some(9000), None, None, None],
        dc: 0,
    }))
}

/// The source `s` at a place.
fn far(alloc: Global, at: Pt) -> Option<Edit> {
    let name = Name::from_vec(b"s".to_vec(alloc).ok()?);
    Some(source(name, at))
}

fn near(alloc: Global) -> Option<Edit> {
    let name = Name::from_vec(b"t".to_vec(alloc).ok()?);
    Some(source(name, Pt::new(40_000, 30_000)))
}

/// A scene with the source `s`, or with `t`, or with both.
fn scene(alloc: Global, s: bool, t: bool) -> Option<Scene> {
    let mut scene = Scene::empty(alloc).ok()?;
    if s {
        take(alloc, &mut scene, far(alloc, Pt::new(0, 0)))?;
    }
    if t {
        take(alloc, &mut scene, near(alloc))?;
    }
    Some(scene)
}

fn receiver(alloc: Global) -> Option<Receiver> {
    Some(Receiver {
        name: Name::from_vec(b"r".to_vec(alloc).ok()?),
        at: Pt::new(100_000, 0),
        h: 2000,
    })
}

/// The row of a receiver in a scene, of one bundle at most that was kept. A full row stands as the sources do.
fn row_of<L: Ledger>(
    alloc: Global,
    scene: &Scene,
    receiver: &Receiver,
    kept: &WithSums,
    steps: &mut Steps<L>,
) -> Option<WithSums>
    ensures { IfSome result (λ row. length row.bundles.items ≡ length scene.now.sources
        → StandAsSources scene.now receiver.now row.bundles.items) }
{
    let bundles = kept.bundles.as_slice();
    if bundles.len() > 1 {
        return None;
    }
    let marks = &[false][..bundles.len()];
    match refresh_sums(alloc, scene, receiver, bundles, marks, &kept.sums, steps) {
        Ok(row) => Some(row),
        Err(_) => None,
    }
}

/// The row in a scene, of what was kept. With a mark on the first of two bundles that one is calculated again.
fn row_counted<L: Ledger>(
    alloc: Global,
    scene: &Scene,
    kept: &WithSums,
    marked: bool,
    blank: Blank,
) -> Option<WithSums>
    requires name { blank.name ≡ L.name }
    requires parts { blank.parts ≡ L.parts }
    requires some { 0 < blank.parts }
{
    let receiver = receiver(alloc)?;
    let mut steps = Steps::<L>::of(blank);
    let row = row_of(alloc, scene, &receiver, kept, &mut steps)?;
    if !marked {
        return Some(row);
    }
    if row.bundles.len() != scene.sources().len() {
        return None;
    }
    renewed(alloc, scene, &receiver, row, &mut steps)
}

/// The row, with steps that nobody counts.
fn refreshed(alloc: Global, scene: &Scene, kept: &WithSums, marked: bool) -> Option<WithSums> {
    row_counted::<Brand>(alloc, scene, kept, marked, Blank::new(1))
}

/// The row of a receiver in the scene of some sources.
fn next(alloc: Global, s: bool, t: bool, kept: &WithSums) -> Option<WithSums> {
    let scene = scene(alloc, s, t)?;
    refreshed(alloc, &scene, kept, false)
}

fn total(row: &WithSums) -> Ends {
    let total = row.sums.levels().total;
    (total.low(), total.high())
}

/// The row of nothing.
fn nothing(alloc: Global) -> WithSums {
    WithSums {
        bundles: Vec::new(alloc),
        sums: RowSums::zero(),
    }
}

/// The total with `t`, then with `s` in its place, and then with both.
fn totals(alloc: Global) -> Option<[Ends; 3]> {
    let one = next(alloc, false, true, &nothing(alloc))?;
    let other = next(alloc, true, false, &one)?;
    let both = next(alloc, true, true, &other)?;
    Some([total(&one), total(&other), total(&both)])
}

#[test]
fn sums_follow_the_sources(rt: HostRuntime) {
    let expected = [
        (Some(194_365_999_740), Some(194_365_999_800)),
        (Some(178_952_583_410), Some(178_952_583_430)),
        (Some(201_137_171_430), Some(201_137_171_470)),
    ];
    assert_eq!(rt; totals(rt.alloc()), Some(expected));
}

/// The scene with the source `s` alone, before it moved.
fn before(alloc: Global) -> Option<Scene> {
    let mut scene = Scene::empty(alloc).ok()?;
    take(alloc, &mut scene, far(alloc, Pt::new(70_000, -50_000)))?;
    Some(scene)
}

/// A row of two bundles after the first was marked, where they stand as the sources do.
fn renewed<L: Ledger>(
    alloc: Global,
    scene: &Scene,
    receiver: &Receiver,
    row: WithSums,
    steps: &mut Steps<L>,
) -> Option<WithSums>
    requires { StandAsSources scene.now receiver.now row.bundles.items }
{
    if scene.sources().len() != 2 {
        return None;
    }
    let prepared = prepare(alloc, scene).ok()?;
    let plain = IndexedScene::plain(scene);
    let WithSums { bundles, sums } = row;
    let kept = bundles.as_slice();
    let marks = &[true, false];
    let renewal = Renewal::of(&plain, &prepared, receiver, kept, marks);
    match renew(alloc, &renewal, &sums, true, steps) {
        Ok(renewed) => Some(renewed.with_kept(bundles)),
        Err(_) => None,
    }
}

/// The total with both, after `s` moved to its place: the bundle that was kept of it stands until it is marked.
fn total_after_move(alloc: Global) -> Option<Ends> {
    let old = refreshed(alloc, &before(alloc)?, &nothing(alloc), false)?;
    let row = refreshed(alloc, &scene(alloc, true, true)?, &old, true)?;
    Some(total(&row))
}

#[test]
fn a_moved_source_is_heard_where_it_stands(rt: HostRuntime) {
    let expected = (Some(201_137_171_430), Some(201_137_171_470));
    assert_eq!(rt; total_after_move(rt.alloc()), Some(expected));
}
