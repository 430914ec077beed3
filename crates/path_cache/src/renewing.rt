//! Refreshes of rows that keep the sums of their bundles' energies.
ghost use Rattle.std.specs.Bool.{OnTrue};
ghost use Rattle.std.specs.Vec.Iter.{into_iter_items, into_iter_len};
ghost use Rattle.std.specs.Prelude.{◌≡◌, ◌≤◌, ◌<◌, ◌+◌, ◌∷◌, true, List, [], IfOk, IfSome, OnOk, is_some, length, drop, vec_capacity};
ghost use Rattle.path_calc.specs.Bundles.{Bundle as BundleSeen};
ghost use Rattle.path_cache.specs.Refreshed.{CanRefresh, refreshed, count_wanted};
ghost use Rattle.path_cache.specs.Sums.{Fits};
ghost use Rattle.path_cache.specs.Origins.{Ascend, bundles_from};
ghost use Rattle.path_cache.specs.inner.Origins.{StandInPlace, StandsAt, placed_at};
ghost use Rattle.path_cache.specs.Standing.{StandAsSources};
ghost use Rattle.path_cache.specs.Renewals.{Gives, Leads, with_each, is_in_place};

use crate::origins::{Origin, copied, sums_after};
use crate::preparing::prepare;
use crate::refreshing::{Renewal, needs_a_path, origins_of};
use crate::replacing::{Replaced, put_each, replace_marked};
use crate::sums::RowSums;
use path_calc::{Bundle, IndexedScene, Steps};
use scene_book::Scene;
use scene_parts::{NoMemory, Receiver};
use sight_cut::grid_of;
use std::alloc::Global;
use std::sync::ledger::Ledger;
use std::vec::IntoIter;

/// The bundles of a receiver, and the sums of their energies.
#[derive(Drop)]
pub struct WithSums {
    pub bundles: Vec<Bundle>,
    pub sums: RowSums,
    pub ghost fit: { Fits sums bundles.items },
}

/// A refresh of a receiver's bundles for which all was calculated and all memory taken, and the sums of these bundles.
#[derive(Drop)]
pub struct Renewed {
    pub(crate) way: Way,
    pub(crate) sums: RowSums,
}

/// How the refreshed bundles come from the kept ones.
#[derive(Drop)]
pub(crate) enum Way {
    /// Each has an origin, and there is room for them.
    Anew(Vec<Origin>, Vec<Bundle>),
    /// New ones take the places of some of so many kept ones.
    InPlace(Vec<Replaced>, usize),
}

/// The bundles of a receiver in a scene as `refresh` gives them, of kept ones that are marked or not, and their sums,
/// where the sums of the kept ones are known: what was calculated again or is gone is taken off, what is new is added.
pub fn refresh_sums<L: Ledger>(
    alloc: Global,
    scene: &Scene,
    receiver: &Receiver,
    kept: &[Bundle],
    marks: &[bool],
    sums: &RowSums,
    steps: &mut Steps<L>,
) -> Result<WithSums, NoMemory>
    requires kept { CanRefresh kept.now marks.now }
    requires fit { Fits sums.now kept.now }
    ensures value { IfOk result (λ row. row.bundles.items
        ≡ refreshed scene.now receiver.now kept.now marks.now) }
    ensures fit { IfOk result (λ row. Fits row.sums row.bundles.items) }
    ensures few { IfOk result (λ row. length row.bundles.items ≤ 128) }
    ensures steps { OnOk result (steps.new
        ≡ steps.old + count_wanted scene.now receiver.now kept.now marks.now) }
    ensures most { steps.new ≤ steps.old + count_wanted scene.now receiver.now kept.now marks.now }
{
    let prepared = prepare(alloc, scene)?;
    if !needs_a_path(scene, receiver, kept, marks) {
        let scene = IndexedScene::plain(scene);
        let renewal = Renewal::of(&scene, &prepared, receiver, kept, marks);
        return refresh_sums_prepared(alloc, &renewal, sums, steps);
    }
    let grid = grid_of(alloc, scene.obstacles())?;
    let scene = IndexedScene::by(scene, &grid);
    let facing = scene.facing_to(alloc, receiver.at)?;
    let scene = scene.beside(&facing);
    let renewal = Renewal::of(&scene, &prepared, receiver, kept, marks);
    refresh_sums_prepared(alloc, &renewal, sums, steps)
}

/// The same, of a scene that may have an index of its obstacles, and whose sources are prepared.
fn refresh_sums_prepared<L: Ledger>(
    alloc: Global,
    renewal: &Renewal<'_>,
    sums: &RowSums,
    steps: &mut Steps<L>,
) -> Result<WithSums, NoMemory>
    requires { Fits sums.now renewal.now.kept.now }
    ensures value { IfOk result (λ row. row.bundles.items
        ≡ refreshed renewal.now.scene.now renewal.now.receiver.now
        renewal.now.kept.now renewal.now.marks.now) }
    ensures fit { IfOk result (λ row. Fits row.sums row.bundles.items) }
    ensures few { IfOk result (λ row. length row.bundles.items ≤ 128) }
    ensures steps { OnOk result (steps.new
        ≡ steps.old + count_wanted renewal.now.scene.now renewal.now.receiver.now
        renewal.now.kept.now renewal.now.marks.now) }
    ensures most { steps.new
        ≤ steps.old + count_wanted renewal.now.scene.now renewal.now.receiver.now
        renewal.now.kept.now renewal.now.marks.now }
{
    let origins = origins_of(alloc, renewal, steps)?;
    let sums = sums_after(renewal.kept, origins.as_slice(), sums);
    let bundles = copied(alloc, renewal.kept, origins)?;
    Ok(WithSums { bundles, sums })
}

/// The same for a row that gives its kept bundles away: here all is done that may fail, and then `Renewed::with_kept`
/// moves the kept bundles that stand to where they stay. Where the kept bundles are known to stand as the sources of the
/// scene do, all within reach, only the marked ones are looked at.
pub fn renew<L: Ledger>(
    alloc: Global,
    renewal: &Renewal<'_>,
    sums: &RowSums,
    stand: bool,
    steps: &mut Steps<L>,
) -> Result<Renewed, NoMemory>
    requires fit { Fits sums.now renewal.now.kept.now }
    requires stand { stand ≡ true
        → StandAsSources renewal.now.scene.now renewal.now.receiver.now renewal.now.kept.now }
    ensures value { IfOk result (λ renewed. Gives renewed renewal.now.kept.now
        (refreshed renewal.now.scene.now renewal.now.receiver.now
        renewal.now.kept.now renewal.now.marks.now)) }
    ensures in_place { IfOk result (λ renewed. is_in_place renewed ≡ stand) }
    ensures few { IfOk result (λ renewed.
        length (refreshed renewal.now.scene.now renewal.now.receiver.now
        renewal.now.kept.now renewal.now.marks.now) ≤ 128) }
    ensures steps { OnOk result (steps.new
        ≡ steps.old + count_wanted renewal.now.scene.now renewal.now.receiver.now
        renewal.now.kept.now renewal.now.marks.now) }
    ensures most { steps.new
        ≤ steps.old + count_wanted renewal.now.scene.now renewal.now.receiver.now
        renewal.now.kept.now renewal.now.marks.now }
{
    if stand {
        let row = replace_marked(alloc, renewal, sums, steps)?;
        return Ok(Renewed {
            way: Way::InPlace(row.news, renewal.kept.len()),
            sums: row.sums,
        });
    }
    let origins = origins_of(alloc, renewal, steps)?;
    let sums = sums_after(renewal.kept, origins.as_slice(), sums);
    let room = Vec::with_capacity(alloc, origins.len())?;
    Ok(Renewed {
        way: Way::Anew(origins, room),
        sums,
    })
}

impl Renewed {
    /// How many bundles it gives.
    pub fn len(&self) -> usize
        ensures { (kept : List BundleSeen) (bundles : List BundleSeen) → Gives self.now kept bundles
            → result ≡ length bundles }
    {
        match &self.way {
            Way::Anew(origins, _) => origins.len(),
            Way::InPlace(_, count) => *count,
        }
    }

    /// The new bundles with their places, where each kept bundle that stands stays in its place.
    pub fn replaced(&self) -> Option<&[Replaced]>
        ensures some { is_some result ≡ is_in_place self.now }
        ensures news { (kept : List BundleSeen) (bundles : List BundleSeen) → Gives self.now kept bundles
            → IfSome result (λ news. bundles ≡ with_each news.now kept) }
    {
        match &self.way {
            Way::Anew(_, _) => None,
            Way::InPlace(news, _) => Some(news.as_slice()),
        }
    }

    /// The refreshed bundles and their sums: kept bundles that stand stay in their places or are moved, the others are dropped.
    /// No memory is taken.
    pub fn with_kept(self, kept: Vec<Bundle>) -> WithSums
        requires { (bundles : _) × Gives self kept.items bundles }
        ensures { (bundles : _) → Gives self kept.items bundles → result.bundles.items ≡ bundles }
    {
        let Renewed { way, sums } = self;
        WithSums {
            bundles: led(way, kept),
            sums,
        }
    }
}

/// The bundles to which a way leads.
fn led(way: Way, kept: Vec<Bundle>) -> Vec<Bundle>
    requires { (bundles : _) × Leads way kept.items bundles }
    ensures { (bundles : _) → Leads way kept.items bundles → result.items ≡ bundles }
{
    match way {
        Way::Anew(origins, room) => gathered(origins, kept, room),
        Way::InPlace(news, _) => put_each(news, kept),
    }
}

/// The bundles of some origins: where each kept one that goes over stays in its place, new ones take the places of the
/// others, and else there is room for all.
fn gathered(origins: Vec<Origin>, kept: Vec<Bundle>, room: Vec<Bundle>) -> Vec<Bundle>
    requires ascend { Ascend 0 origins.items (length kept.items) }
    requires empty { room.items ≡ [] }
    requires room { length origins.items ≤ vec_capacity room }
    ensures { result.items ≡ bundles_from kept.items origins.items }
{
    if origins.len() == kept.len() && stand_in_place(origins.as_slice()) {
        put_in_place(origins, kept)
    } else {
        moved(origins, kept, room)
    }
}

/// Whether each kept bundle among some origins goes over to its own place.
fn stand_in_place(origins: &[Origin]) -> bool
    ensures { OnTrue result (StandInPlace origins.now) }
{
    for (place, origin) in origins.iter().enumerate() {
        if !stands_at(origin, place) {
            return false;
        }
    }
    true
}

/// Whether an origin is new, or that of the kept bundle at a place.
fn stands_at(origin: &Origin, place: usize) -> bool
    ensures { OnTrue result (StandsAt place origin.now) }
{
    match origin {
        Origin::Kept(kept) => *kept == place,
        Origin::New(_) => true,
    }
}

/// The bundles of some origins, where each kept one that goes over stands in its place already.
fn put_in_place(origins: Vec<Origin>, kept: Vec<Bundle>) -> Vec<Bundle>
    requires places { StandInPlace origins.items }
    requires count { length origins.items ≡ length kept.items }
    ensures { result.items ≡ bundles_from kept.items origins.items }
{
    let mut bundles = kept;
    let mut place = 0;
    for origin in origins {
        put_new(&mut bundles, place, origin);
        place += 1;
    }
    bundles
}

/// Puts a new bundle at a place. A kept one stands there already.
fn put_new(bundles: &mut Vec<Bundle>, place: usize, origin: Origin)
    requires { place < length bundles.old.items }
    ensures { bundles.new.items ≡ placed_at place origin bundles.old.items }
{
    if let Origin::New(bundle) = origin {
        bundles[place] = Box::into_inner(bundle);
    }
}

/// The bundles of some origins, where those that were kept are moved. There is room for them.
fn moved(origins: Vec<Origin>, kept: Vec<Bundle>, room: Vec<Bundle>) -> Vec<Bundle>
    requires ascend { Ascend 0 origins.items (length kept.items) }
    requires empty { room.items ≡ [] }
    requires room { length origins.items ≤ vec_capacity room }
    ensures { result.items ≡ bundles_from kept.items origins.items }
{
    let mut bundles = room;
    let mut rest = kept.into_iter();
    let mut next = 0;
    for origin in origins {
        let bundle = match origin {
            Origin::Kept(place) => {
                let bundle = item_behind(&mut rest, place - next);
                next = place + 1;
                bundle
            }
            Origin::New(bundle) => Box::into_inner(bundle),
        };
        bundles.push_reserved(bundle);
    }
    bundles
}

/// The item behind so many others, which are dropped.
fn item_behind(rest: &mut IntoIter<Bundle>, count: usize) -> Bundle
    requires { count < into_iter_len rest.old }
    ensures { drop count (into_iter_items rest.old) ≡ result ∷ into_iter_items rest.new }
{
    for _ in 0..count {
        drop(rest.next());
    }
    match rest.next() {
        Some(bundle) => bundle,
        None => unreachable!(),
    }
}
