//! Marks on the kept bundles that edits touch.
ghost use Rattle.std.specs.Prelude.{◌≡◌, ◌||◌, false, IfSome, length, map};
ghost use Rattle.std.specs.List.{zip, list_any};
ghost use Rattle.map_board.specs.inner.Marks as form;
ghost use Rattle.map_board.specs.inner.Marks.{mark_after, marks_after, marks_from, touches_one, TouchesFrom};
ghost use Rattle.map_board.specs.inner.Paths.{counted, tests_to};

use crate::rows::Cache;
use path_cache::Bundle;
use scene_book::{Edit, Logged};
use scene_parts::{Globals, Name, Part, Receiver};
use touch_test::{may_touch, touches};

/// Marks each bundle whose path an edit touches. The globals are those before the edit. Where the marks don't count, it gives
/// whether there is one; where they do, those that are marked aren't looked at again, and what it gives tells nothing.
pub(crate) fn mark(
    cache: &mut Cache,
    counts: bool,
    logged: &Logged,
    globals: &Globals,
    receiver: &Receiver,
) -> bool
    requires { length cache.old.marks.items ≡ length cache.old.bundles.items }
    ensures bundles { cache.new.bundles ≡ cache.old.bundles }
    ensures order { cache.new.order ≡ cache.old.order }
    ensures marks { cache.new.marks.items ≡ marks_after logged.now.edit logged.now.old receiver.now
        cache.old.bundles.items cache.old.marks.items }
    ensures one { counts ≡ false → result
        ≡ touches_one logged.now.edit logged.now.old receiver.now cache.old.bundles.items }
{
    if cache.bundles.is_empty() {
        return false;
    }
    if !may_touch(logged, &cache.envelope, receiver) {
        return false;
    }
    mark_each(
        cache.bundles.as_slice(),
        cache.marks.as_mut_slice(),
        counts,
        logged,
        globals,
        receiver,
    )
}

/// Marks those of some bundles, as `mark` does. Where the edit changes a source alone, only the names of sources are looked
/// at.
fn mark_each(
    bundles: &[Bundle],
    marks: &mut [bool],
    counts: bool,
    logged: &Logged,
    globals: &Globals,
    receiver: &Receiver,
) -> bool
    requires { length marks.old ≡ length bundles.now }
    ensures marks { marks.new
        ≡ marks_after logged.now.edit logged.now.old receiver.now bundles.now marks.old }
    ensures one { counts ≡ false → result
        ≡ touches_one logged.now.edit logged.now.old receiver.now bundles.now }
{
    if let Some(name) = source_changed(logged) {
        return mark_by_source(bundles, marks, name.items());
    }
    if counts {
        mark_unmarked(bundles, marks, logged, globals, receiver);
        return false;
    }
    let mut one = false;
    for (place, bundle) in bundles.iter().enumerate() {
        if touches(logged, globals, bundle, receiver) {
            marks[place] = true;
            one = true;
        }
    }
    one
}

/// Marks those of some bundles that an edit touches, and looks only at those that aren't marked.
fn mark_unmarked(
    bundles: &[Bundle],
    marks: &mut [bool],
    logged: &Logged,
    globals: &Globals,
    receiver: &Receiver,
)
    requires { length marks.old ≡ length bundles.now }
    ensures { marks.new
        ≡ marks_after logged.now.edit logged.now.old receiver.now bundles.now marks.old }
{
    for (place, bundle) in bundles.iter().enumerate() {
        marks[place] = mark_of(marks[place], logged, globals, bundle, receiver);
    }
}

/// The mark of a bundle after an edit: it stays, and is set where the edit touches the bundle's path.
fn mark_of(
    marked: bool,
    logged: &Logged,
    globals: &Globals,
    bundle: &Bundle,
    receiver: &Receiver,
) -> bool
    ensures { result ≡ mark_after logged.now.edit logged.now.old receiver.now (bundle.now, marked) }
{
    marked || touches(logged, globals, bundle, receiver)
}

/// The name of the source that an edit puts, replaces or removes. Such an edit touches the paths from this source alone.
pub(crate) fn source_changed(logged: &Logged) -> Option<&Name>
    ensures { IfSome result (λ name. TouchesFrom name.now logged.now.edit logged.now.old) }
{
    match (&logged.edit, &logged.old) {
        (Edit::Put(Part::Source(new)), None) => Some(&new.name),
        (Edit::Put(Part::Source(new)), Some(Part::Source(old)))
            if new.name.items() == old.name.items() => { Some(&new.name) }
        (Edit::Remove(_), Some(Part::Source(old))) => Some(&old.name),
        _ => None,
    }
}

/// Marks the bundles of the source of a name, and gives whether there is one.
fn mark_by_source(bundles: &[Bundle], marks: &mut [bool], name: &[u8]) -> bool
    requires { length marks.old ≡ length bundles.now }
    ensures marks { marks.new ≡ marks_from name.now bundles.now marks.old }
    ensures one { result ≡ list_any (form.is_from name.now) bundles.now }
{
    let mut one = false;
    for (place, bundle) in bundles.iter().enumerate() {
        if is_from(bundle, name) {
            marks[place] = true;
            one = true;
        }
    }
    one
}

/// Whether a bundle is that of the source of a name.
fn is_from(bundle: &Bundle, name: &[u8]) -> bool
    ensures { result ≡ form.is_from name.now bundle.now }
{
    name == bundle.source.items()
}

/// Marks as `mark` does, where it may be known already which of the bundles' paths the edit touches, beside those that are
/// marked where the marks count.
pub(crate) fn mark_known(
    cache: &mut Cache,
    counts: bool,
    tests: Option<&[bool]>,
    logged: &Logged,
    globals: &Globals,
    receiver: &Receiver,
) -> bool
    requires count { length cache.old.marks.items ≡ length cache.old.bundles.items }
    requires tests { IfSome tests (λ tests. tests.now
        ≡ tests_to logged.now receiver.now (counted counts cache.old)) }
    ensures bundles { cache.new.bundles ≡ cache.old.bundles }
    ensures order { cache.new.order ≡ cache.old.order }
    ensures marks { cache.new.marks.items ≡ marks_after logged.now.edit logged.now.old receiver.now
        cache.old.bundles.items cache.old.marks.items }
    ensures one { counts ≡ false → result
        ≡ touches_one logged.now.edit logged.now.old receiver.now cache.old.bundles.items }
{
    match tests {
        Some(tests) => mark_tested(cache.marks.as_mut_slice(), tests),
        None => mark(cache, counts, logged, globals, receiver),
    }
}

/// Sets the mark at each place where a test says so, and gives whether there is one.
fn mark_tested(marks: &mut [bool], tests: &[bool]) -> bool
    requires { length marks.old ≡ length tests.now }
    ensures marks { marks.new ≡ map (λ pair. pair.1 || pair.0) (zip tests.now marks.old) }
    ensures one { result ≡ list_any (λ test. test) tests.now }
{
    let mut one = false;
    for (place, test) in tests.iter().enumerate() {
        if *test {
            marks[place] = true;
            one = true;
        }
    }
    one
}
