//! The log of a board: what its edits did since a version, for bundles that come back later.
ghost use Rattle.std.specs.Prelude.{◌≡◌, ◌+◌, ◌-◌, ◌≤◌, ◌<◌, [], ◌∷◌, ◌++◌, length, drop, OnOk, vec_len, vec_capacity};

use scene_book::Logged;
use scene_parts::{Globals, NoMemory};
use std::alloc::Global;

/// An accepted edit with its old part, and what held of the whole scene before it.
#[derive(Drop)]
pub(crate) struct LogEntry {
    pub logged: Logged,
    pub globals: Globals,
}

/// The edits after a version up to the newest, the oldest first. No scene stands in it.
#[derive(Drop)]
pub(crate) struct Log {
    pub start: u64,
    pub entries: Vec<LogEntry>,
}

impl Log {
    /// The log of a board without edits.
    pub(crate) fn new(alloc: Global) -> Log
        ensures start { result.start ≡ 0 }
        ensures entries { result.entries.items ≡ [] }
    {
        Log {
            start: 0,
            entries: Vec::new(alloc),
        }
    }

    /// Makes room for one entry more.
    pub(crate) fn reserve(&mut self) -> Result<(), NoMemory>
        ensures start { self.new.start ≡ self.old.start }
        ensures entries { self.new.entries.items ≡ self.old.entries.items }
        ensures room { OnOk result (vec_len self.new.entries < vec_capacity self.new.entries) }
    {
        self.entries.reserve(1)?;
        Ok(())
    }

    /// Adds the newest edit.
    pub(crate) fn add(&mut self, logged: Logged, globals: Globals)
        requires { vec_len self.old.entries < vec_capacity self.old.entries }
        ensures start { self.new.start ≡ self.old.start }
        ensures entries { self.new.entries.items
            ≡ self.old.entries.items ++ record { logged = logged; globals = globals } ∷ [] }
    {
        self.entries.push_reserved(LogEntry { logged, globals });
    }

    /// Drops the entries of the edits up to a version.
    pub(crate) fn trim(&mut self, version: u64)
        requires from { self.old.start ≤ version }
        requires to { version ≤ self.old.start + length self.old.entries.items }
        ensures start { self.new.start ≡ version }
        ensures entries { self.new.entries.items ≡ drop (version - self.old.start) self.old.entries.items }
    {
        let gone = (version - self.start) as usize;
        let left = self.entries.len() - gone;
        self.entries.rotate_left(gone);
        self.entries.truncate(left);
        self.start = version;
    }
}
