//! Things filed under their names, before they are put into a register.
ghost use Rattle.std.specs.Prelude.{◌≡◌, ◌≤◌, length, IfOk};
ghost use Rattle.std.specs.Map.{values_of};
ghost use Rattle.indexmap.specs.IndexMap.{spare, insert_all as insert_all_of, IsUnique};
ghost use Rattle.scene_book.specs.inner.Filed.{AreFiled, same_key};

use super::register::Named;
use indexmap::IndexMap;
use scene_parts::NoMemory;
use std::alloc::Global;

/// The name of a thing, as its key.
pub(crate) fn key_of<T: Named>(alloc: Global, thing: &T) -> Result<Vec<u8>, NoMemory>
    ensures { IfOk result (λ key. key.items ≡ T.slot.name_of thing.now) }
{
    Ok(thing.name().to_vec(alloc)?)
}

/// These things, each with its name as its key.
pub(crate) fn filed<T: Named>(alloc: Global, things: Vec<T>) -> Result<Vec<(Vec<u8>, T)>, NoMemory>
    ensures filed { IfOk result (λ entries. AreFiled T.slot.name_of entries.items) }
    ensures things { IfOk result (λ entries. values_of entries.items ≡ things.items) }
{
    let mut entries = Vec::with_capacity(alloc, things.len())?;
    for thing in things {
        let key = key_of(alloc, &thing)?;
        entries.push((key, thing))?;
    }
    Ok(entries)
}

/// Inserts entries one after another where there is room for all: this needs no memory.
pub(crate) fn insert_all<T: Named>(things: &mut IndexMap<Vec<u8>, T>, entries: Vec<(Vec<u8>, T)>)
    requires room { length entries.items ≤ spare things.old }
    requires unique { IsUnique same_key things.old }
    ensures entries { things.new.entries ≡ insert_all_of same_key things.old.entries entries.items }
    ensures unique { IsUnique same_key things.new }
{
    for (key, thing) in entries {
        let _old = things.insert(key, thing).unwrap();
    }
}
