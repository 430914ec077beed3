//! Rows whose bundles stand as the sources of the scene do: one of each source, in their order.
ghost use Rattle.std.specs.Prelude.{◌≡◌, ◌≤◌, ◌⊎◌, true, map, IsSomeAnd, Some, None, option_to_list, if◌then◌else◌};
ghost use Rattle.std.specs.Option.{option_copied};
ghost use Rattle.scene_book.specs.Laws.{pieces_of, pieces_of_any};
ghost use Rattle.map_board.specs.inner.Sources.{LeavesSourceNames};

use scene_book::{Edit, Logged};
use scene_parts::{Part, PointSource};

/// A version, where something holds of it.
pub(crate) fn version_if(holds: bool, version: u64) -> Option<u64>
    ensures { result ≡ (if holds then Some version else None) }
{
    if holds { Some(version) } else { None }
}

/// Whether a version is known, and isn't before another.
pub(crate) fn is_known_since(version: Option<u64>, since: u64) -> bool
    ensures { result ≡ true → IsSomeAnd version (λ version. since ≤ version) }
{
    match version {
        Some(version) => since <= version,
        None => false,
    }
}

/// Since which version the names of the sources stand as they do, after an edit that made a version: as before it, where it
/// leaves them.
pub(crate) fn named_since(before: u64, logged: &Logged, version: u64) -> u64
    ensures { (result ≡ version)
        ⊎ ((result ≡ before) × LeavesSourceNames logged.now.edit logged.now.old) }
{
    if leaves_source_names(logged) {
        before
    } else {
        version
    }
}

/// Whether an edit with its old part surely leaves the names of a scene's sources as they are, and their order.
fn leaves_source_names(logged: &Logged) -> bool
    ensures { result ≡ true → LeavesSourceNames logged.now.edit logged.now.old }
{
    let old = source_if_any(&logged.old);
    match &logged.edit {
        Edit::Put(part) => are_of_one_name(source_of(part), old),
        Edit::Remove(_) => are_of_one_name(None, old),
        Edit::Grid(_) => true,
        Edit::Set(_) => true,
    }
}

/// The source that a part is, if it is one.
fn source_of(part: &Part) -> Option<&PointSource>
    ensures { option_to_list (option_copied result) ≡ (pieces_of part.now).sources }
{
    match part {
        Part::Source(source) => Some(source),
        _ => None,
    }
}

/// The same of a part that may be there.
fn source_if_any(part: &Option<Part>) -> Option<&PointSource>
    ensures { option_to_list (option_copied result) ≡ (pieces_of_any part.now).sources }
{
    match part {
        Some(part) => source_of(part),
        None => None,
    }
}

/// Whether there are two sources of one name, or none.
fn are_of_one_name(a: Option<&PointSource>, b: Option<&PointSource>) -> bool
    ensures { result ≡ true → map (λ s. s.name) (option_to_list (option_copied a.entry))
        ≡ map (λ s. s.name) (option_to_list (option_copied b.entry)) }
{
    match (a, b) {
        (Some(a), Some(b)) => a.name.items() == b.name.items(),
        (None, None) => true,
        _ => false,
    }
}
