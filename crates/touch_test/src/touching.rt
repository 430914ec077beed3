//! Which paths and which receivers an edit touches.
ghost use Rattle.std.specs.Prelude.{◌≡◌, Ok, map, option_map};
ghost use Rattle.std.specs.List.{list_any};
ghost use Rattle.scene_parts.specs.Parts.{Source};
ghost use Rattle.scene_book.specs.Book.{Book};
ghost use Rattle.scene_book.specs.Applying.{apply_of};
ghost use Rattle.path_calc.specs.Bundles.{bundle_of};
ghost use Rattle.path_calc.specs.Show.{bundles_of};
ghost use Rattle.touch_test.specs.Envelopes as far;
ghost use Rattle.touch_test.specs.Envelopes.{edit_may_touch};
ghost use Rattle.touch_test.specs.Touches as form;
ghost use Rattle.touch_test.specs.Touches.{bundled, changed_parts, edit_touches, edit_touches_any, touches_path, touches_receiver};

use crate::envelopes::Envelope;
use crate::grids::puts;
use crate::parts::{is_receiver, is_source_within, part_may_touch, part_touches};
use path_calc::Bundle;
use scene_book::{Edit, Logged};
use scene_parts::{Globals, Part, Receiver};

/// Whether an accepted edit touches the path of a bundle to its receiver. The bundle is one of the scene before the edit;
/// nothing of what holds of that whole scene enters. No memory is taken.
pub fn touches(l: &Logged, _globals: &Globals, b: &Bundle, receiver: &Receiver) -> bool
    ensures exact { result ≡ edit_touches l.now.edit l.now.old (bundled receiver.now b.now) }
    ensures rule { (book after : Book) (s : Source) → apply_of l.now.edit book ≡ Ok (after, l.now.old)
        → b.now ≡ bundle_of book s receiver.now → result ≡ touches_path l.now.edit book receiver.now s }
{
    edit_touches_path(l, b, receiver)
}

/// Whether an accepted edit touches a receiver, of which these are the bundles of the scene before the edit, with that
/// scene's globals: also by a source that comes within its reach. No memory is taken.
pub fn touches_row(l: &Logged, globals: &Globals, bundles: &[Bundle], receiver: &Receiver) -> bool
    ensures exact { result
        ≡ edit_touches_any l.now.edit l.now.old globals.now receiver.now (map (bundled receiver.now) bundles.now) }
    ensures rule { (book after : Book) → apply_of l.now.edit book ≡ Ok (after, l.now.old)
        → globals.now ≡ book.globals → bundles.now ≡ bundles_of book receiver.now
        → result ≡ touches_receiver l.now.edit book receiver.now }
{
    edit_touches_row(l, globals, bundles, receiver)
}

/// Whether an accepted edit may touch one of the paths in a box to a receiver, as far as the box tells. Where it may not,
/// it touches none, whichever these are, and none of them needs be looked at. No memory is taken.
pub fn may_touch(l: &Logged, envelope: &Envelope, receiver: &Receiver) -> bool
    ensures { result ≡ edit_may_touch envelope.now receiver.now l.now.edit l.now.old }
{
    is_elsewhere(envelope, receiver) || edit_may_reach(l, envelope, receiver.name.items())
}

/// Whether a box isn't of a receiver, but of one at another place.
fn is_elsewhere(envelope: &Envelope, receiver: &Receiver) -> bool
    ensures { result ≡ far.is_elsewhere envelope.now receiver.now }
{
    envelope.to.x != receiver.at.x || envelope.to.y != receiver.at.y
}

/// Whether an edit may touch a path in a box to the receiver of a name.
fn edit_may_reach(l: &Logged, envelope: &Envelope, name: &[u8]) -> bool
    ensures { result ≡ far.edit_may_reach envelope.now name.now l.now.edit l.now.old }
{
    is_set(&l.edit)
        || puts_by_grid(&l.edit, name)
        || new_part(&l.edit).is_some_and(|part| part_may_touch(part, envelope, name))
        || l.old
            .as_ref()
            .is_some_and(|part| part_may_touch(part, envelope, name))
}

/// Whether an edit touches a receiver that has the paths of these bundles.
fn edit_touches_row(l: &Logged, globals: &Globals, bundles: &[Bundle], receiver: &Receiver) -> bool
    ensures { result
        ≡ edit_touches_any l.now.edit l.now.old globals.now receiver.now (map (bundled receiver.now) bundles.now) }
{
    is_set(&l.edit)
        || names_receiver(l, receiver.name.items())
        || brings_source(l, globals.reach, receiver)
        || touches_any(l, bundles, receiver)
}

/// Whether an edit puts or removes the receiver of a name, alone or by a grid.
pub fn names_receiver(l: &Logged, name: &[u8]) -> bool
    ensures { result ≡ form.names_receiver name.now l.now.edit l.now.old }
{
    puts_by_grid(&l.edit, name)
        || new_part(&l.edit).is_some_and(|part| is_receiver(part, name))
        || l.old.as_ref().is_some_and(|part| is_receiver(part, name))
}

/// Whether an edit touches the path of one of some bundles.
fn touches_any(l: &Logged, bundles: &[Bundle], receiver: &Receiver) -> bool
    ensures { result
        ≡ list_any (edit_touches l.now.edit l.now.old) (map (bundled receiver.now) bundles.now) }
{
    for bundle in bundles {
        if edit_touches_path(l, bundle, receiver) {
            return true;
        }
    }
    false
}

/// Whether an edit touches the path of a bundle.
fn edit_touches_path(l: &Logged, bundle: &Bundle, receiver: &Receiver) -> bool
    ensures { result ≡ edit_touches l.now.edit l.now.old (bundled receiver.now bundle.now) }
{
    is_set(&l.edit)
        || puts_by_grid(&l.edit, receiver.name.items())
        || new_part(&l.edit).is_some_and(|part| part_touches(part, bundle, receiver))
        || l.old
            .as_ref()
            .is_some_and(|part| part_touches(part, bundle, receiver))
}

/// Whether a source that an edit puts or removes lies within reach of a receiver.
fn brings_source(l: &Logged, reach: u32, receiver: &Receiver) -> bool
    ensures { result
        ≡ list_any (form.is_source_within reach receiver.now) (changed_parts l.now.edit l.now.old) }
{
    new_part(&l.edit).is_some_and(|part| is_source_within(part, reach, receiver))
        || l.old
            .as_ref()
            .is_some_and(|part| is_source_within(part, reach, receiver))
}

/// The part that an edit puts.
fn new_part(edit: &Edit) -> Option<&Part>
    ensures { option_map (λ part. part.now) result ≡ form.new_part edit.now }
{
    match edit {
        Edit::Put(part) => Some(part),
        _ => None,
    }
}

/// Whether an edit sets globals.
fn is_set(edit: &Edit) -> bool
    ensures { result ≡ form.is_set edit.now }
{
    match edit {
        Edit::Set(_) => true,
        _ => false,
    }
}

/// Whether an edit puts the receiver of a name by a grid.
fn puts_by_grid(edit: &Edit, name: &[u8]) -> bool
    ensures { result ≡ form.puts_by_grid name.now edit.now }
{
    match edit {
        Edit::Grid(grid) => puts(grid, name),
        _ => false,
    }
}
