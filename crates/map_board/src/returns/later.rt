//! What later edits do to bundles of an earlier version.
ghost use Rattle.std.specs.Prelude.{◌≡◌, ◌+◌, ◌-◌, ◌<◌, ◌≤◌, ◌^◌, length, drop};
ghost use Rattle.map_board.specs.inner.Later.{first_entry_touching, marks_after_all};

use crate::edits::log::LogEntry;
use crate::edits::marking::mark;
use crate::rows::Cache;
use path_cache::Bundle;
use scene_parts::Receiver;
use touch_test::touches_row;

/// Marks each bundle whose path one of some edits touches. Nobody asks which edit it is.
pub(crate) fn mark_by_all(cache: &mut Cache, later: &[LogEntry], receiver: &Receiver)
    requires { length cache.old.marks.items ≡ length cache.old.bundles.items }
    ensures bundles { cache.new.bundles ≡ cache.old.bundles }
    ensures order { cache.new.order ≡ cache.old.order }
    ensures marks { cache.new.marks.items ≡ marks_after_all later.now receiver.now
        cache.old.bundles.items cache.old.marks.items }
{
    for entry in later {
        mark(cache, true, &entry.logged, &entry.globals, receiver);
    }
}

/// The version of the first of some edits after a version that touches the receiver of these bundles.
pub(crate) fn first_touching(
    later: &[LogEntry],
    version: u64,
    bundles: &[Bundle],
    receiver: &Receiver,
) -> Option<u64>
    requires { version + length later.now < 2 ^ 64 }
    ensures { result ≡ first_entry_touching receiver.now bundles.now version later.now }
{
    let mut number = version;
    for entry in later {
        number += 1;
        if touches_row(&entry.logged, &entry.globals, bundles, receiver) {
            return Some(number);
        }
    }
    None
}

/// The entries after a version, of a log up to the newest.
pub(crate) fn entries_since(entries: &[LogEntry], newest: u64, version: u64) -> &[LogEntry]
    requires past { version ≤ newest }
    requires from { newest ≤ version + length entries.now }
    ensures { result.now ≡ drop (length entries.now - (newest - version)) entries.now }
{
    &entries[entries.len() - (newest - version) as usize..]
}
