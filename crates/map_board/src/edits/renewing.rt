//! Rows that go over to the scene after an edit.
ghost use Rattle.std.specs.Prelude.{◌≡◌, ◌≤◌, ◌<◌, ℕ, Some, None, false, length, slice_get, All, IfSome, IsSomeAnd, vec_capacity};
ghost use Rattle.std.specs.Option.{option_map};
ghost use Rattle.scene_book.specs.Lists.{AreApart};
ghost use Rattle.path_cache.specs.Refreshed.{CanRefresh};
ghost use Rattle.touch_test.specs.Touches.{touches_receiver};
ghost use Rattle.map_board.specs.declared.rows.KeptLevels.{KeptLevels};
ghost use Rattle.map_board.specs.Machine.{rows_after};
ghost use Rattle.map_board.specs.Boards.{kept_of, row_of, rows_of};
ghost use Rattle.map_board.specs.inner.Boards.{ByIsRight, RowHolds, EachHolds, IsOutSince, IsEmpty, EmptyFrom};
ghost use Rattle.map_board.specs.inner.Marks.{marks_after, touches_one, TouchesFrom};
ghost use Rattle.map_board.specs.inner.Paths.{counted, kept_at, kept_of_row, tests_of, tests_to};
ghost use Rattle.map_board.specs.inner.Changes.{scene_before, scene_after, journal_after, touches_a_path, most_more, named_place, gone_from, removed_place, put_place, placed, without_place, changes_receivers_alone as receivers_alone, is_receiver_if_any as receiver_if_any, is_receiver_part, was_receiver_part, may_name_any, IsChange, IsFresh, HasRow, IsRowAfter, AreRenewed, NamesNone};

use crate::edits::marking::{mark_known, source_changed};
use crate::edits::testing::{PathTest, count_at, cut, slice_if_any};
use crate::past::Past;
use crate::rows::{Cache, HeldRow, KeptLevels};
use path_cache::{Bundle, RowSums};
use scene_book::limits::MAX_RECEIVERS;
use scene_book::{Edit, Logged, Scene};
use scene_parts::{Globals, Part, Receiver};
use std::alloc::Global;
use std::snapshot::Snapshot;
use touch_test::{Envelope, names_receiver, touches_row};

/// An edit that the newest scene accepts, what held of that whole scene, the edit's version, and the journal before it,
/// which contracts alone see. Where the edit puts a source, its bundle is looked for first at the place of the source.
pub(crate) struct Change {
    pub logged: Logged,
    pub globals: Globals,
    pub version: u64,
    pub past: Snapshot<Past>,
    pub first: Option<usize>,
}

/// The place of the source that an edit has put. It only tells where a bundle is looked for first, so no contract says it.
pub(crate) fn source_place(edit: &Edit, scene: &Scene) -> Option<usize> {
    let Edit::Put(Part::Source(new)) = edit else {
        return None;
    };
    let name = new.name.items();
    scene
        .sources()
        .iter()
        .position(|source| source.name.items() == name)
}

/// How many rows an edit may add to so many.
pub(crate) fn rows_more(edit: &Edit, count: usize) -> usize
    ensures { result ≡ most_more edit.now count }
{
    match edit {
        Edit::Put(Part::Receiver(_)) => 1,
        Edit::Grid(grid) => {
            let left = (MAX_RECEIVERS as usize).saturating_sub(count);
            ((grid.columns * grid.rows) as usize).min(left)
        }
        _ => 0,
    }
}

/// The place of the receiver whose name an edit removes.
pub(crate) fn place_to_go(edit: &Edit, scene: &Scene) -> Option<usize>
    ensures { result ≡ named_place edit.now scene.now.receivers }
{
    match edit {
        Edit::Remove(name) => scene.receiver_place(name.items()),
        _ => None,
    }
}

/// The place of the receiver that an edit has removed, where this is the place of its name.
pub(crate) fn place_removed(logged: &Logged, place: Option<usize>) -> Option<usize>
    ensures { result ≡ gone_from place logged.now.edit logged.now.old }
{
    match (&logged.edit, &logged.old) {
        (Edit::Remove(_), Some(Part::Receiver(_))) => place,
        _ => None,
    }
}

/// The rows go over to the scene after an edit: that of a receiver that it removes is dropped, those that it puts are
/// made anew, and the others stay, each at its receiver's place. Rows from a place on are known to be empty, and stay so.
pub(crate) fn carry_over<T: PathTest>(
    alloc: Global,
    rows: &mut Vec<HeldRow>,
    empty_from: usize,
    gone: Option<usize>,
    scene: &Scene,
    change: &Change,
    test: &T,
)
    requires ready { T.ready test.now }
    requires change { IsChange change.now }
    requires news { scene.now.receivers ≡ (scene_after change.now).receivers }
    requires apart { AreApart (λ r. r.name) (scene_before change.now).receivers }
    requires each { EachHolds change.now.past.value (scene_before change.now).receivers rows.old.items }
    requires gone { gone ≡ removed_place change.now }
    requires empty { EmptyFrom empty_from rows.old.items }
    requires room { length scene.now.receivers ≤ vec_capacity rows.old }
    ensures each { EachHolds (journal_after change.now) scene.now.receivers rows.new.items }
    ensures rows { rows_of scene.now.receivers rows.new.items
        ≡ rows_after change.now.logged.edit change.now.past.value
        (rows_of (scene_before change.now).receivers rows.old.items) }
    ensures empty { EmptyFrom empty_from rows.new.items }
{
    drop_at(rows, gone);
    match place_alone(&change.logged, scene) {
        Some(place) => put_at(rows, place, fresh_row(alloc, change.version)),
        None => renew_each(alloc, rows, empty_from, scene.receivers(), change, test),
    }
}

/// The place of the receiver that an edit puts, where it changes receivers alone.
fn place_alone(logged: &Logged, scene: &Scene) -> Option<usize>
    ensures { result ≡ put_place logged.now.edit logged.now.old scene.now.receivers }
{
    let Edit::Put(part) = &logged.edit else {
        return None;
    };
    match part {
        Part::Receiver(receiver) if is_receiver_if_any(&logged.old) => {
            scene.receiver_place(receiver.name.items())
        }
        _ => None,
    }
}

/// Drops the row at a place, if there is a place.
fn drop_at(rows: &mut Vec<HeldRow>, place: Option<usize>)
    requires { IfSome place (λ place. place < length rows.old.items) }
    ensures items { rows.new.items ≡ without_place place rows.old.items }
    ensures room { vec_capacity rows.new ≡ vec_capacity rows.old }
{
    if let Some(place) = place {
        drop(rows.remove(place));
    }
}

/// The row of each receiver after an edit, at its place: anew where the edit names the receiver, else renewed. All paths
/// are tested first, where the way of testing does so and the edit may touch any. Where the edit names no receiver, the
/// rows from a place on that are known to be empty stay as they are.
fn renew_each<T: PathTest>(
    alloc: Global,
    rows: &mut Vec<HeldRow>,
    empty_from: usize,
    news: &[Receiver],
    change: &Change,
    test: &T,
)
    requires ready { T.ready test.now }
    requires change { IsChange change.now }
    requires empty { EmptyFrom empty_from rows.old.items }
    requires few { length rows.old.items ≤ length news.now }
    requires room { length news.now ≤ vec_capacity rows.old }
    requires there { (k : ℕ) (r : _) → slice_get news.now k ≡ Some r
        → HasRow change.now r (slice_get rows.old.items k) }
    ensures count { length rows.new.items ≡ length news.now }
    ensures each { (k : ℕ) (r : _) → slice_get news.now k ≡ Some r
        → IsSomeAnd (slice_get rows.new.items k) (IsRowAfter change.now r (slice_get rows.old.items k)) }
{
    let count = count_to_renew(&change.logged, empty_from, news.len());
    let tests = if count == 0 || changes_receivers_alone(&change.logged) {
        None
    } else {
        test.tests(
            alloc,
            news,
            rows.as_slice(),
            count,
            &change.logged,
            &change.globals,
        )
    };
    renew_in_turn(alloc, rows, count, news, change, &tests);
}

/// How many of so many rows an edit may change, where those from a place on are empty: all, or where it names no receiver
/// those before that place.
fn count_to_renew(logged: &Logged, empty_from: usize, all: usize) -> usize
    ensures most { result ≤ all }
    ensures fewer { result < all → (empty_from ≤ result) × NamesNone logged.now.edit logged.now.old }
{
    if may_name(logged) {
        all
    } else {
        all.min(empty_from)
    }
}

/// Whether an edit may name a receiver.
fn may_name(logged: &Logged) -> bool
    ensures { result ≡ may_name_any logged.now.edit logged.now.old }
{
    match &logged.edit {
        Edit::Put(part) => is_receiver(part) || was_receiver(&logged.old),
        Edit::Remove(_) => was_receiver(&logged.old),
        Edit::Grid(_) => true,
        Edit::Set(_) => was_receiver(&logged.old),
    }
}

/// Whether there is an old part, and it is a receiver.
fn was_receiver(old: &Option<Part>) -> bool
    ensures { result ≡ was_receiver_part old.now }
{
    match old {
        Some(part) => is_receiver(part),
        None => false,
    }
}

/// The rows of so many receivers from the first on, one after another, where it may be known which paths the edit touches.
fn renew_in_turn(
    alloc: Global,
    rows: &mut Vec<HeldRow>,
    count: usize,
    news: &[Receiver],
    change: &Change,
    tests: &Option<Vec<bool>>,
)
    requires change { IsChange change.now }
    requires count { count ≤ length news.now }
    requires few { length rows.old.items ≤ length news.now }
    requires room { length news.now ≤ vec_capacity rows.old }
    requires there { (k : ℕ) (r : _) → slice_get news.now k ≡ Some r
        → HasRow change.now r (slice_get rows.old.items k) }
    requires tests { IfSome tests.now (λ tests. tests.items
        ≡ tests_of change.now.logged news.now rows.old.items) }
    ensures { AreRenewed change.now news.now rows.old.items count rows.new.items }
{
    let mut left = slice_if_any(tests);
    for place in 0..count {
        let receiver = &news[place];
        let (own, rest) = cut(left, count_at(rows.as_slice(), place));
        left = rest;
        renew_at(alloc, rows, place, receiver, change, own);
    }
}

/// The row of a receiver at its place: anew where the edit names the receiver, else renewed.
fn renew_at(
    alloc: Global,
    rows: &mut Vec<HeldRow>,
    place: usize,
    receiver: &Receiver,
    change: &Change,
    tests: Option<&[bool]>,
)
    requires change { IsChange change.now }
    requires place { place ≤ length rows.old.items }
    requires room { place < vec_capacity rows.old }
    requires there { HasRow change.now receiver.now (slice_get rows.old.items place) }
    requires tests { IfSome tests (λ tests. tests.now ≡ tests_to change.now.logged receiver.now
        (kept_at (slice_get rows.old.items place))) }
    ensures room { vec_capacity rows.new ≡ vec_capacity rows.old }
    ensures made { (made : _) × (rows.new.items ≡ placed place made rows.old.items)
        × IsRowAfter change.now receiver.now (slice_get rows.old.items place) made }
{
    if names_receiver(&change.logged, receiver.name.items()) {
        put_at(rows, place, fresh_row(alloc, change.version));
    } else if !changes_receivers_alone(&change.logged) {
        renew(&mut rows[place], receiver, change, tests);
    }
}

/// Whether an edit changes receivers alone, and so touches no other receiver's paths.
fn changes_receivers_alone(logged: &Logged) -> bool
    ensures { result ≡ receivers_alone logged.now.edit logged.now.old }
{
    match &logged.edit {
        Edit::Put(part) => is_receiver(part) && is_receiver_if_any(&logged.old),
        Edit::Remove(_) => is_receiver_if_any(&logged.old),
        Edit::Grid(_) => is_receiver_if_any(&logged.old),
        Edit::Set(_) => false,
    }
}

/// Whether a part is a receiver, if there is a part.
fn is_receiver_if_any(part: &Option<Part>) -> bool
    ensures { result ≡ receiver_if_any part.now }
{
    match part {
        Some(part) => is_receiver(part),
        None => true,
    }
}

/// Whether a part is a receiver.
fn is_receiver(part: &Part) -> bool
    ensures { result ≡ is_receiver_part part.now }
{
    match part {
        Part::Receiver(_) => true,
        _ => false,
    }
}

/// A row in the place of another, or behind the last.
fn put_at(rows: &mut Vec<HeldRow>, place: usize, row: HeldRow)
    requires place { place ≤ length rows.old.items }
    requires room { place < vec_capacity rows.old }
    ensures room { vec_capacity rows.new ≡ vec_capacity rows.old }
    ensures items { rows.new.items ≡ placed place row rows.old.items }
{
    if place < rows.len() {
        rows[place] = row;
    } else {
        rows.push_reserved(row);
    }
}

/// A row made anew.
fn fresh_row(alloc: Global, version: u64) -> HeldRow
    ensures { IsFresh version result }
{
    let cache = Cache {
        bundles: Vec::new(alloc),
        marks: Vec::new(alloc),
        sums: RowSums::zero(),
        envelope: Envelope::empty(),
        order: None,
    };
    HeldRow {
        since: version,
        kept: None,
        out: None,
        cache: Some(cache),
    }
}

/// The row of a receiver after the edit: bundles that the edit touches are marked, and kept levels are stale by it where
/// it is the first that touches them. It may be known which of the row's paths the edit touches.
fn renew(row: &mut HeldRow, receiver: &Receiver, change: &Change, tests: Option<&[bool]>)
    requires change { IsChange change.now }
    requires holds { RowHolds change.now.past.value receiver.now row.old }
    requires tests { IfSome tests (λ tests. tests.now
        ≡ tests_to change.now.logged receiver.now (kept_of_row row.old)) }
    ensures row { row_of receiver.now row.new ≡ row_of receiver.now row.old }
    ensures holds { RowHolds (journal_after change.now) receiver.now row.new }
    ensures empty { IsEmpty row.old → IsEmpty row.new }
{
    let counts = !row.is_current();
    if let Some(cache) = &mut row.cache {
        let one = mark_row(cache, counts, tests, receiver, change);
        touch(&mut row.kept, one, receiver, change);
    }
}

/// Marks a row as `mark_known` does. Where the edit changes a source whose bundle stands where it is looked for first, no other
/// bundle is looked at.
fn mark_row(
    cache: &mut Cache,
    counts: bool,
    tests: Option<&[bool]>,
    receiver: &Receiver,
    change: &Change,
) -> bool
    requires kept { CanRefresh cache.old.bundles.items cache.old.marks.items }
    requires tests { IfSome tests (λ tests. tests.now
        ≡ tests_to change.now.logged receiver.now (counted counts cache.old)) }
    ensures bundles { cache.new.bundles ≡ cache.old.bundles }
    ensures order { cache.new.order ≡ cache.old.order }
    ensures marks { cache.new.marks.items
        ≡ marks_after change.now.logged.edit change.now.logged.old receiver.now
        cache.old.bundles.items cache.old.marks.items }
    ensures one { counts ≡ false → result
        ≡ touches_one change.now.logged.edit change.now.logged.old receiver.now
        cache.old.bundles.items }
{
    match place_touched(cache.bundles.as_slice(), change) {
        Some(place) => {
            cache.marks[place] = true;
            true
        }
        None => mark_known(
            cache,
            counts,
            tests,
            &change.logged,
            &change.globals,
            receiver,
        ),
    }
}

/// The place of the one bundle that an edit touches, where it changes a source whose bundle stands where it is looked for
/// first.
fn place_touched(bundles: &[Bundle], change: &Change) -> Option<usize>
    ensures { IfSome result (λ place. IsSomeAnd (slice_get bundles.now place)
        (λ bundle. TouchesFrom bundle.source change.now.logged.edit change.now.logged.old)) }
{
    let name = source_changed(&change.logged)?;
    let place = change.first?;
    let bundle = bundles.get(place)?;
    if bundle.source.items() == name.items() {
        Some(place)
    } else {
        None
    }
}

/// Kept levels after the edit, where it is known whether it touches one of their receiver's paths: where none touched the
/// receiver before, they are stale by this one if it does.
fn touch(kept: &mut Option<KeptLevels>, one: bool, receiver: &Receiver, change: &Change)
    requires change { IsChange change.now }
    requires by { ByIsRight change.now.past.value receiver.now kept.old }
    requires past { (levels : KeptLevels) → kept.old ≡ Some levels
        → levels.version ≤ length change.now.past.value }
    requires one { (levels : KeptLevels) → kept.old ≡ Some levels → levels.by ≡ None
        → one ≡ touches_a_path change.now receiver.now }
    ensures same { option_map kept_of kept.new ≡ option_map kept_of kept.old }
    ensures by { ByIsRight (journal_after change.now) receiver.now kept.new }
{
    let Some(levels) = kept else {
        return;
    };
    if levels.by.is_none() && is_touched(one, receiver, change) {
        levels.by = Some(change.version);
    }
}

/// Whether the edit touches a receiver of the scene before it, where it is known whether it touches one of its paths.
fn is_touched(one: bool, receiver: &Receiver, change: &Change) -> bool
    requires change { IsChange change.now }
    requires one { one ≡ touches_a_path change.now receiver.now }
    ensures { result
        ≡ touches_receiver change.now.logged.edit (scene_before change.now) receiver.now }
{
    one || touches_row(&change.logged, &change.globals, &[], receiver)
}

/// The least version of a job that is out, or this one, which is the newest.
pub(crate) fn least_out(rows: &[HeldRow], newest: u64) -> u64
    ensures reaches { All (IsOutSince result) rows.now }
    ensures newest { result ≤ newest }
    ensures start { (start : ℕ) → start ≤ newest → All (IsOutSince start) rows.now → start ≤ result }
{
    let mut least = newest;
    for row in rows {
        if let Some(version) = row.out {
            least = least.min(version);
        }
    }
    least
}
