//! A refresh of the bundles of one receiver.
ghost use Rattle.std.specs.List.{list_any};
ghost use Rattle.std.specs.Prelude.{◌≡◌, ◌≤◌, ◌+◌, [], ◌∷◌, ◌++◌, IfOk, OnOk, length, map, if◌then◌else◌};
ghost use Rattle.path_calc.specs.Bundles.{bundle_of};
ghost use Rattle.path_calc.specs.Prepared.{prepared_of};
ghost use Rattle.path_cache.specs.Refreshed.{CanRefresh, refreshed, refreshed_bundle, is_wanted, count_wanted};
ghost use Rattle.path_cache.specs.inner.OneProof.{CanRefresh-prop};
ghost use Rattle.path_cache.specs.Origins.{Ascend, bundle_from, bundles_from};
ghost use Rattle.path_cache.specs.inner.Origins.{IsBetween};
ghost use Rattle.path_cache.specs.inner.OfOneSource.{refreshed_of_one, steps_of_one, needs_path};

use crate::keeping::{find_unmarked, search_unmarked};
use crate::origins::{Origin, Origins, boxed_copy, copied};
use crate::preparing::prepare;
use path_calc::{
    Bundle, IndexedScene, PreparedReceiver, PreparedSource, Steps, Workspace, bundle_between,
    within,
};
use scene_book::Scene;
use scene_parts::{NoMemory, PointSource, Receiver};
use sight_cut::grid_of;
use std::alloc::Global;
use std::sync::ledger::Ledger;

/// The bundles of a receiver in a scene, of kept ones that are marked or not: for each source within reach, in the order
/// of sources, the unmarked kept bundle of that source exactly as it stands, where there is one, and else the scene's.
/// One step is counted for each source within reach whose bundle is marked or missing, and no other; where there is no
/// memory, for some of them.
pub fn refresh<L: Ledger>(
    alloc: Global,
    scene: &Scene,
    receiver: &Receiver,
    kept: &[Bundle],
    marks: &[bool],
    steps: &mut Steps<L>,
) -> Result<Vec<Bundle>, NoMemory>
    requires { CanRefresh kept.now marks.now }
    ensures value { IfOk result (λ bundles. bundles.items
        ≡ refreshed scene.now receiver.now kept.now marks.now) }
    ensures few { IfOk result (λ bundles. length bundles.items ≤ 128) }
    ensures steps { OnOk result (steps.new
        ≡ steps.old + count_wanted scene.now receiver.now kept.now marks.now) }
    ensures most { steps.new ≤ steps.old + count_wanted scene.now receiver.now kept.now marks.now }
{
    let prepared = prepare(alloc, scene)?;
    if !needs_a_path(scene, receiver, kept, marks) {
        let scene = IndexedScene::plain(scene);
        let renewal = Renewal::of(&scene, &prepared, receiver, kept, marks);
        return refresh_prepared(alloc, &renewal, steps);
    }
    let grid = grid_of(alloc, scene.obstacles())?;
    let scene = IndexedScene::by(scene, &grid);
    let facing = scene.facing_to(alloc, receiver.at)?;
    let scene = scene.beside(&facing);
    let renewal = Renewal::of(&scene, &prepared, receiver, kept, marks);
    refresh_prepared(alloc, &renewal, steps)
}

/// Whether the bundle of a source within reach is marked or missing.
pub(crate) fn needs_a_path(
    scene: &Scene,
    receiver: &Receiver,
    kept: &[Bundle],
    marks: &[bool],
) -> bool
    requires { CanRefresh kept.now marks.now }
    ensures { result ≡ list_any (needs_path scene.now receiver.now kept.now marks.now) scene.now.sources }
{
    for source in scene.sources() {
        if needs_path_of(scene, receiver, kept, marks, source) {
            return true;
        }
    }
    false
}

/// Whether a source is within reach, and its bundle marked or missing.
fn needs_path_of(
    scene: &Scene,
    receiver: &Receiver,
    kept: &[Bundle],
    marks: &[bool],
    source: &PointSource,
) -> bool
    requires { CanRefresh kept.now marks.now }
    ensures { result ≡ needs_path scene.now receiver.now kept.now marks.now source.now }
{
    within(scene.globals().reach, source.at, receiver.at)
        && search_unmarked(kept, marks, &source.name).is_none()
}

/// The same, of a scene that may have an index of its obstacles, and whose sources are prepared.
fn refresh_prepared<L: Ledger>(
    alloc: Global,
    renewal: &Renewal<'_>,
    steps: &mut Steps<L>,
) -> Result<Vec<Bundle>, NoMemory>
    ensures value { IfOk result (λ bundles. bundles.items
        ≡ refreshed renewal.now.scene.now renewal.now.receiver.now
        renewal.now.kept.now renewal.now.marks.now) }
    ensures few { IfOk result (λ bundles. length bundles.items ≤ 128) }
    ensures steps { OnOk result (steps.new
        ≡ steps.old + count_wanted renewal.now.scene.now renewal.now.receiver.now
        renewal.now.kept.now renewal.now.marks.now) }
    ensures most { steps.new
        ≤ steps.old + count_wanted renewal.now.scene.now renewal.now.receiver.now
        renewal.now.kept.now renewal.now.marks.now }
{
    let origins = origins_of(alloc, renewal, steps)?;
    Ok(copied(alloc, renewal.kept, origins)?)
}

/// Where each bundle of a refreshed receiver comes from: for each source within reach, in the order of sources, the
/// unmarked kept bundle of that source, where there is one, and else the scene's, which is calculated.
pub(crate) fn origins_of<L: Ledger>(
    alloc: Global,
    renewal: &Renewal<'_>,
    steps: &mut Steps<L>,
) -> Result<Vec<Origin>, NoMemory>
    ensures value { IfOk result (λ origins. bundles_from renewal.now.kept.now origins.items
        ≡ refreshed renewal.now.scene.now renewal.now.receiver.now
        renewal.now.kept.now renewal.now.marks.now) }
    ensures ascend { IfOk result (λ origins. Ascend 0 origins.items (length renewal.now.kept.now)) }
    ensures few { IfOk result (λ origins. length origins.items ≤ 128) }
    ensures steps { OnOk result (steps.new
        ≡ steps.old + count_wanted renewal.now.scene.now renewal.now.receiver.now
        renewal.now.kept.now renewal.now.marks.now) }
    ensures most { steps.new
        ≤ steps.old + count_wanted renewal.now.scene.now renewal.now.receiver.now
        renewal.now.kept.now renewal.now.marks.now }
{
    let mut workspace = Workspace::new(alloc);
    let mut origins = Origins {
        list: Vec::with_capacity(alloc, renewal.scene.sources().len())?,
        next: 0,
    };
    for (place, source) in renewal.scene.sources().iter().enumerate() {
        renewal.add(
            alloc,
            source,
            &renewal.prepared[place],
            &mut workspace,
            steps,
            &mut origins,
        )?;
    }
    Ok(origins.list)
}

/// A receiver in a scene, and what was kept for it: a bundle of each source at most, of which some are marked.
#[derive(Drop)]
pub struct Renewal<'a> {
    pub(crate) scene: &'a IndexedScene<'a>,
    pub(crate) prepared: &'a [PreparedSource],
    pub(crate) receiver: &'a Receiver,
    pub(crate) to: PreparedReceiver,
    pub(crate) kept: &'a [Bundle],
    pub(crate) marks: &'a [bool],
    pub(crate) ghost of_sources: { prepared.now ≡ map prepared_of scene.now.sources },
    pub(crate) ghost ready: { to ≡ receiver.now.h },
    pub(crate) ghost keeps: { CanRefresh kept.now marks.now } by { CanRefresh-prop kept.now marks.now },
}

impl<'a> Renewal<'a> {
    /// What was kept for a receiver in a scene that may have an index of its obstacles, and whose sources are prepared:
    /// once, and not for each receiver.
    pub fn of(
        scene: &'a IndexedScene<'a>,
        prepared: &'a [PreparedSource],
        receiver: &'a Receiver,
        kept: &'a [Bundle],
        marks: &'a [bool],
    ) -> Renewal<'a>
        requires prepared { prepared.now ≡ map prepared_of scene.now.sources }
        requires kept { CanRefresh kept.now marks.now }
        ensures scene { result.scene.now ≡ scene.now }
        ensures receiver { result.receiver.now ≡ receiver.now }
        ensures kept { result.kept.now ≡ kept.now }
        ensures marks { result.marks.now ≡ marks.now }
    {
        Renewal {
            scene,
            prepared,
            receiver,
            to: PreparedReceiver::of(receiver),
            kept,
            marks,
        }
    }

    /// Adds the origin of a source's bundle, if the source is within reach.
    fn add<L: Ledger>(
        &self,
        alloc: Global,
        source: &PointSource,
        from: &PreparedSource,
        workspace: &mut Workspace,
        steps: &mut Steps<L>,
        origins: &mut Origins,
    ) -> Result<(), NoMemory>
        requires { from.now ≡ prepared_of source.now }
        ensures bundles { OnOk result (bundles_from self.now.kept.now origins.new.list.items
            ≡ bundles_from self.now.kept.now origins.old.list.items
            ++ refreshed_of_one self.now.scene.now self.now.receiver.now
            self.now.kept.now self.now.marks.now source.now) }
        ensures ascend { OnOk result (Ascend 0 origins.old.list.items origins.old.next
            → Ascend 0 origins.new.list.items origins.new.next) }
        ensures next { OnOk result (origins.old.next ≤ length self.now.kept.now
            → origins.new.next ≤ length self.now.kept.now) }
        ensures one { OnOk result (length origins.new.list.items ≤ length origins.old.list.items + 1) }
        ensures steps { steps.new ≡ steps.old
            + steps_of_one self.now.scene.now self.now.receiver.now
            self.now.kept.now self.now.marks.now source.now }
    {
        let receiver = self.receiver;
        if !within(self.scene.globals().reach, source.at, receiver.at) {
            return Ok(());
        }
        let origin = self.origin(alloc, source, from, origins.next, workspace, steps)?;
        origins.push(origin)?;
        Ok(())
    }

    /// The unmarked kept bundle of a source, which may stand at a place or behind it, and else the scene's. Where it stands
    /// before that place, as the sources had another order when it was kept, a copy stands for it.
    #[tactic(auto, unfolding(crate::specs::Refreshed::refreshed_bundle))]
    fn origin<L: Ledger>(
        &self,
        alloc: Global,
        source: &PointSource,
        from: &PreparedSource,
        next: usize,
        workspace: &mut Workspace,
        steps: &mut Steps<L>,
    ) -> Result<Origin, NoMemory>
        requires { from.now ≡ prepared_of source.now }
        ensures bundle { IfOk result (λ origin. bundle_from self.now.kept.now origin
            ≡ refreshed_bundle self.now.scene.now self.now.receiver.now self.now.kept.now
            self.now.marks.now source.now ∷ []) }
        ensures place { IfOk result (λ origin. IsBetween next (length self.now.kept.now) origin) }
        ensures steps { steps.new ≡ steps.old
            + (if is_wanted self.now.kept.now self.now.marks.now source.now then 1 else 0) }
    {
        match find_unmarked(self.kept, self.marks, &source.name, next) {
            Some(place) if next <= place => Ok(Origin::Kept(place)),
            Some(place) => Ok(Origin::New(boxed_copy(alloc, self.kept, place)?)),
            None => Ok(Origin::New(self.calculated(alloc, source, from, workspace, steps)?)),
        }
    }

    /// The scene's bundle of a source. It isn't put into its callers, since each source whose bundle stands would pay there
    /// for the locals of a calculation.
    #[inline(never)]
    pub(crate) fn calculated<L: Ledger>(
        &self,
        alloc: Global,
        source: &PointSource,
        from: &PreparedSource,
        workspace: &mut Workspace,
        steps: &mut Steps<L>,
    ) -> Result<Box<Bundle>, NoMemory>
        requires { from.now ≡ prepared_of source.now }
        ensures value { IfOk result (λ bundle. bundle.value
            ≡ bundle_of self.now.scene.now source.now self.now.receiver.now) }
        ensures step { steps.new ≡ steps.old + 1 }
    {
        let bundle = bundle_between(
            alloc,
            self.scene,
            source,
            from,
            self.receiver,
            &self.to,
            workspace,
            steps,
        )?;
        Ok(Box::new(alloc, bundle)?)
    }
}
