//! Which of the kept paths an edit touches, found of all rows at once.
ghost use Rattle.std.specs.Prelude.{◌≡◌, ◌≤◌, ◌++◌, ◌&&◌, IfOk, IfSome, length, map, slice_get, take, drop, ⊤};
ghost use Rattle.std.specs.Option.{option_map};
ghost use Rattle.std.specs.Thread.{IsSync};
ghost use Rattle.map_board.specs.inner.Paths.{counted, kept_at, kept_of_row, path_seen, paths_of, paths_to, test_of, tests_of};

use crate::edits::marking::source_changed;
use crate::rows::{Cache, HeldRow};
use path_cache::Bundle;
use rayon::prelude::*;
use scene_book::Logged;
use scene_parts::{Globals, NoMemory, Receiver};
use std::alloc::{AllocError, Global};
use std::thread::Threads;
use touch_test::{may_touch, touches};

/// How many paths a thread has to test at the least. Fewer cost less than the start of a thread.
const MIN_PATHS: usize = 4096;

/// A kept path: a bundle, the receiver to which it leads, and whether it is marked already, so that no test is needed.
#[derive(Clone, Copy)]
pub(crate) struct Path<'a> {
    pub receiver: &'a Receiver,
    pub bundle: &'a Bundle,
    pub marked: bool,
}

/// A way to find which paths of some rows an edit touches.
pub(crate) trait PathTest {
    // Holds of a way that may be taken.
    ghost ready: { Self → Type 0 };

    /// Of each path of the rows, in their order, to the receiver at its row's place: whether the edit touches it, or it has a
    /// mark that counts. Or nothing, where each row is to be tested when it is marked. The globals are those before the edit.
    /// No row from the place `filled` on keeps a path: it only tells how far to count them, so no contract says it.
    fn tests(
        &self,
        alloc: Global,
        receivers: &[Receiver],
        rows: &[HeldRow],
        filled: usize,
        logged: &Logged,
        globals: &Globals,
    ) -> Option<Vec<bool>>
        requires ready { ready self.now }
        requires few { length rows.now ≤ length receivers.now }
        ensures { IfSome result (λ tests. tests.items ≡ tests_of logged.now receivers.now rows.now) };
}

/// Each row is tested when it is marked. No memory is taken.
#[derive(Drop)]
pub(crate) struct InOneThread;

impl PathTest for InOneThread {
    ghost ready = { λ _. ⊤ };

    fn tests(
        &self,
        _alloc: Global,
        _receivers: &[Receiver],
        _rows: &[HeldRow],
        _filled: usize,
        _logged: &Logged,
        _globals: &Globals,
    ) -> Option<Vec<bool>> {
        None
    }
}

/// The paths of all rows are shared among threads, where there is memory to list them, and where threads are worth their
/// start.
#[derive(Drop)]
pub(crate) struct InThreads<'a, R> {
    pub rt: &'a R,
}

impl<'a, R: Threads + Sync> PathTest for InThreads<'a, R> {
    ghost ready = { λ _. IsSync R.row };

    fn tests(
        &self,
        alloc: Global,
        receivers: &[Receiver],
        rows: &[HeldRow],
        filled: usize,
        logged: &Logged,
        globals: &Globals,
    ) -> Option<Vec<bool>> {
        if source_changed(logged).is_some() {
            // its bundles are found by name, without a list of all paths
            return None;
        }
        let count = count_for_threads(receivers, &rows[..filled.min(rows.len())], logged)?;
        let paths = kept_paths(alloc, count, receivers, rows).ok()?;
        test_each(self.rt, alloc, paths.as_slice(), logged, globals).ok()
    }
}

/// Of each of some paths, whether it is marked or an edit touches it. Threads test them, each no fewer than the least; few
/// paths are tested by the caller alone, and so are those for which no thread can be started.
fn test_each<R: Threads + Sync>(
    rt: &R,
    alloc: Global,
    paths: &[Path<'_>],
    logged: &Logged,
    globals: &Globals,
) -> Result<Vec<bool>, AllocError>
    ensures { IfOk result (λ tests. tests.items ≡ map (test_of logged.now) (map path_seen paths.now)) }
{
    let tests = paths
        .par_iter()
        .with_min_len(MIN_PATHS)
        .map(
            |path: &Path<'_>| -> bool
                ensures { result ≡ test_of logged.entry.now (path_seen path.now) }
            { path.marked || touches(logged, globals, path.bundle, path.receiver) },
        )
        .collect::<Vec<_>>(rt, alloc)?;
    Ok(tests)
}

/// How many paths the rows keep, where threads are worth their start: enough paths for two of them stand in rows that an
/// edit may touch, as far as the boxes round them tell, and at least half of all do, since threads test all paths.
fn count_for_threads(receivers: &[Receiver], rows: &[HeldRow], logged: &Logged) -> Option<usize>
    requires { length rows.now ≤ length receivers.now }
{
    let all = count_all(rows);
    if all < 2 * MIN_PATHS {
        return None;
    }
    let mut near = 0usize;
    for (place, row) in rows.iter().enumerate() {
        if let Some(cache) = &row.cache {
            if may_touch(logged, &cache.envelope, &receivers[place]) {
                near = near.saturating_add(cache.bundles.len());
            }
        }
    }
    (near >= 2 * MIN_PATHS && near >= all / 2).then_some(all)
}

/// How many paths the rows keep.
fn count_all(rows: &[HeldRow]) -> usize {
    let mut count = 0usize;
    for row in rows {
        count = count.saturating_add(count_in(row));
    }
    count
}

/// The kept paths of rows in their order, each to the receiver at its row's place. There is room for so many from the start.
fn kept_paths<'a>(
    alloc: Global,
    count: usize,
    receivers: &'a [Receiver],
    rows: &'a [HeldRow],
) -> Result<Vec<Path<'a>>, NoMemory>
    requires { length rows.now ≤ length receivers.now }
    ensures { IfOk result (λ paths. map path_seen paths.items ≡ paths_of receivers.now rows.now) }
{
    let mut paths = Vec::with_capacity(alloc, count)?;
    for (place, row) in rows.iter().enumerate() {
        push_row(&mut paths, &receivers[place], row)?;
    }
    Ok(paths)
}

/// Adds the kept paths of a row to its receiver. The marks of a current row don't count, and none is set: so of each of
/// its paths it is known whether the edit touches it, and the first edit that does is noted.
fn push_row<'a>(
    paths: &mut Vec<Path<'a>>,
    receiver: &'a Receiver,
    row: &'a HeldRow,
) -> Result<(), NoMemory>
    ensures { IfOk result (λ _. map path_seen paths.new.items
        ≡ map path_seen paths.old.items ++ paths_to receiver.now (kept_of_row row.now)) }
{
    match &row.cache {
        Some(cache) => push_paths(paths, receiver, cache, !row.is_current()),
        None => Ok(()),
    }
}

/// Adds the paths of these bundles to their receiver. Their marks count or not.
fn push_paths<'a>(
    paths: &mut Vec<Path<'a>>,
    receiver: &'a Receiver,
    cache: &'a Cache,
    counts: bool,
) -> Result<(), NoMemory>
    ensures { IfOk result (λ _. map path_seen paths.new.items
        ≡ map path_seen paths.old.items ++ paths_to receiver.now (counted counts cache.now)) }
{
    let count = cache.bundles.len().min(cache.marks.len());
    for place in 0..count {
        paths.push(Path {
            receiver,
            bundle: &cache.bundles[place],
            marked: both(counts, cache.marks[place]),
        })?;
    }
    Ok(())
}

/// Whether a mark is set and counts.
fn both(counts: bool, mark: bool) -> bool
    ensures { result ≡ (counts && mark) }
{
    counts && mark
}

/// How many bundles with marks stand in the row at a place, if there is a row.
pub(crate) fn count_at(rows: &[HeldRow], place: usize) -> usize
    ensures { result ≡ length (kept_at (slice_get rows.now place)) }
{
    if place < rows.len() {
        count_in(&rows[place])
    } else {
        0
    }
}

/// How many bundles with marks stand in a row.
fn count_in(row: &HeldRow) -> usize
    ensures { result ≡ length (kept_of_row row.now) }
{
    match &row.cache {
        Some(cache) => cache.bundles.len().min(cache.marks.len()),
        None => 0,
    }
}

/// Cuts so many tests off in front, where there are tests.
pub(crate) fn cut(tests: Option<&[bool]>, count: usize) -> (Option<&[bool]>, Option<&[bool]>)
    requires { IfSome tests (λ tests. count ≤ length tests.now) }
    ensures front { option_map (λ t. t.now) result.0 ≡ option_map (λ t. take count t.now) tests.entry }
    ensures rest { option_map (λ t. t.now) result.1 ≡ option_map (λ t. drop count t.now) tests.entry }
{
    match tests {
        Some(tests) => {
            let (front, rest) = tests.split_at(count);
            (Some(front), Some(rest))
        }
        None => (None, None),
    }
}

/// The tests as a slice, where there are tests.
pub(crate) fn slice_if_any(tests: &Option<Vec<bool>>) -> Option<&[bool]>
    ensures { option_map (λ t. t.now) result ≡ option_map (λ t. t.items) tests.now }
{
    match tests {
        Some(tests) => Some(tests.as_slice()),
        None => None,
    }
}
