//! Copies of names that take no memory.
ghost use Rattle.std.specs.Prelude.{◌≡◌};

use arrayvec::ArrayVec;
use scene_parts::Name;
use std::marker::Model;

// The bytes that a name may have.
const MAX_BYTES: usize = 42;

/// A copy of a name, which lies in the value itself. Contracts see it as its bytes.
#[derive(Drop)]
pub(crate) struct NameCopy {
    bytes: ArrayVec<u8, MAX_BYTES>,
}

impl Model for NameCopy {
    ghost use Rattle.std.specs.Prelude.{List, ℕ};

    ghost Value = { List ℕ };

    ghost view = { λ name. name.bytes.items };
}

impl NameCopy {
    /// A copy of this name.
    pub(crate) fn of(name: &Name) -> NameCopy
        ensures { result ≡ name.now }
    {
        let mut bytes = ArrayVec::new();
        let Ok(()) = bytes.try_extend_from_slice(name.items()) else {
            unreachable!()
        };
        NameCopy { bytes }
    }

    /// The bytes of the name.
    pub(crate) fn items(&self) -> &[u8]
        ensures { result.now ≡ self.now }
    {
        self.bytes.as_slice()
    }
}
