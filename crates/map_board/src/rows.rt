//! The rows of a board.
ghost use Rattle.std.specs.Prelude.{◌≡◌, ◌≤◌, false, Some, None, IsSome, IfSome, IfNone, length, count_by};
ghost use Rattle.std.specs.List.{list_any};
ghost use Rattle.map_board.specs.inner.Back.{held_with};
ghost use Rattle.map_board.specs.inner.Boards.{held_shown, is_held_current, is_held_needy, is_held_out, is_held_unsettled, row_out, IsNeedyAt, NoneNeedyBefore};

pub(crate) mod caches;
pub(crate) mod held_rows;
pub(crate) mod standing;

use crate::answers::Shown;
pub(crate) use crate::rows::caches::Cache;
use path_calc::Levels;

/// Levels that were kept: the version whose scene gave them, and the first edit after it that touches the receiver.
#[derive(Drop)]
pub(crate) struct KeptLevels {
    pub version: u64,
    pub by: Option<u64>,
    pub levels: Levels,
}

/// What a board holds for a receiver: the version that put it, the levels kept since, the version of the job that is
/// out, and the bundles (unless they are out with the job). It holds nothing of the scene.
#[derive(Drop)]
pub(crate) struct HeldRow {
    pub since: u64,
    pub kept: Option<KeptLevels>,
    pub out: Option<u64>,
    pub cache: Option<Cache>,
}

impl HeldRow {
    /// What is shown of the row.
    pub(crate) fn shown(&self) -> Shown
        ensures { result ≡ held_shown self.now }
    {
        let Some(kept) = &self.kept else {
            return Shown::New { since: self.since };
        };
        let levels = Levels {
            total: kept.levels.total,
            bands: kept.levels.bands,
        };
        match kept.by {
            None => Shown::Current(levels),
            Some(by) => Shown::Stale {
                version: kept.version,
                by,
                levels,
            },
        }
    }

    /// Whether the row is neither current nor out.
    pub(crate) fn is_needy(&self) -> bool
        ensures { result ≡ is_held_needy self.now }
    {
        !self.is_current() && !self.is_out()
    }

    /// Whether the row is needy or out.
    pub(crate) fn is_unsettled(&self) -> bool
        ensures { result ≡ is_held_unsettled self.now }
    {
        self.is_needy() || self.is_out()
    }

    /// Whether a job is out for the row.
    pub(crate) fn is_out(&self) -> bool
        ensures { result ≡ is_held_out self.now }
    {
        self.out.is_some()
    }

    /// Whether the row holds the levels of the newest scene.
    pub(crate) fn is_current(&self) -> bool
        ensures { result ≡ is_held_current self.now }
    {
        match &self.kept {
            Some(kept) => kept.by.is_none(),
            None => false,
        }
    }
}

/// Marks a row as out with a job of a version, and hands out its bundles.
pub(crate) fn take_row(row: &mut HeldRow, version: u64) -> Cache
    requires { IsSome row.old.cache }
    ensures cache { row.old.cache ≡ Some result }
    ensures row { row.new ≡ row_out version row.old }
{
    row.out = Some(version);
    let Some(cache) = row.cache.take() else {
        unreachable!()
    };
    cache
}

/// What comes back to a row: levels where they were calculated, and its bundles.
#[derive(Drop)]
pub(crate) struct Back {
    pub kept: Option<KeptLevels>,
    pub cache: Cache,
}

/// Puts into a row what comes back to it. No job is out for it from now on.
pub(crate) fn put_back(row: &mut HeldRow, back: Back)
    ensures { row.new ≡ held_with back row.old }
{
    let Back { kept, cache } = back;
    row.out = None;
    row.cache = Some(cache);
    if kept.is_some() {
        row.kept = kept;
    }
}

/// How many jobs were taken, answers kept, answers gone, and jobs given back. Each count stops at 2^64 - 1.
#[derive(Clone, Copy)]
pub(crate) struct Tally {
    pub taken: u64,
    pub kept: u64,
    pub gone: u64,
    pub back: u64,
}

/// The first row from a place on that is neither current nor out.
pub(crate) fn next_needy(rows: &[HeldRow], from: usize) -> Option<usize>
    requires { NoneNeedyBefore from rows.now }
    ensures none { IfNone result (list_any is_held_needy rows.now ≡ false) }
    ensures some { IfSome result (λ place. IsNeedyAt rows.now place) }
    ensures before { IfSome result (λ place. NoneNeedyBefore place rows.now) }
{
    for place in from..rows.len() {
        if rows[place].is_needy() {
            return Some(place);
        }
    }
    None
}

/// How many rows are out.
pub(crate) fn count_out(rows: &[HeldRow]) -> u32
    requires { length rows.now ≤ 4096 }
    ensures { result ≡ count_by is_held_out rows.now }
{
    let mut count = 0;
    for row in rows {
        if row.is_out() {
            count += 1;
        }
    }
    count
}

/// Whether a row is needy or out.
pub(crate) fn is_any_unsettled(rows: &[HeldRow]) -> bool
    ensures { result ≡ list_any is_held_unsettled rows.now }
{
    for row in rows {
        if row.is_unsettled() {
            return true;
        }
    }
    false
}
