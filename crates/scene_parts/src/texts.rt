//! Names and words: texts that contracts see as lists of bytes.
ghost use Rattle.std.specs.Prelude.{◌≡◌, bytes_eq};
ghost use Rattle.scene_parts.specs.Names.{IsName, IsAnyName};

use std::marker::Model;

/// The name of a part: 1 to 42 ASCII letters, digits, `_`, `-`, `.` and `/`. Contracts see it as its bytes.
#[derive(Clone, Debug, Drop)]
pub struct Name {
    bytes: Vec<u8>,
}

impl Model for Name {
    ghost use Rattle.std.specs.Prelude.{List, ℕ};
    ghost use Rattle.scene_parts.specs.Names.{IsAnyName};

    ghost Value = { List ℕ };

    ghost view = { λ name. name.bytes.items };

    ghost invariant = { λ name. IsAnyName name.bytes.items };
}

impl Name {
    /// The name of these bytes.
    pub fn from_vec(items: Vec<u8>) -> Self
        requires { IsAnyName items.items }
        ensures { result ≡ items.items }
    {
        Name { bytes: items }
    }

    /// The bytes of the name.
    pub fn items(&self) -> &[u8]
        ensures value { result.now ≡ self.now }
        ensures name { IsAnyName self.now }
    {
        self.bytes.as_slice()
    }
}

/// A name as a line gives it: 1 to 32 ASCII letters, digits, `_`, `-` and `.`. Contracts see it as its bytes.
#[derive(Clone, Debug, Drop)]
pub struct PlainName {
    bytes: Vec<u8>,
}

impl Model for PlainName {
    ghost use Rattle.std.specs.Prelude.{List, ℕ};
    ghost use Rattle.scene_parts.specs.Names.{IsName};

    ghost Value = { List ℕ };

    ghost view = { λ name. name.bytes.items };

    ghost invariant = { λ name. IsName name.bytes.items };
}

impl PlainName {
    /// The name of these bytes.
    pub fn from_vec(items: Vec<u8>) -> Self
        requires { IsName items.items }
        ensures { result ≡ items.items }
    {
        PlainName { bytes: items }
    }

    /// The bytes of the name.
    pub fn items(&self) -> &[u8]
        ensures value { result.now ≡ self.now }
        ensures name { IsName self.now }
    {
        self.bytes.as_slice()
    }

    /// The same bytes as the name of a part.
    pub fn into_name(self) -> Name
        ensures value { result ≡ self }
        ensures name { IsName self }
        ensures any_name { IsAnyName self }
    {
        Name { bytes: self.bytes }
    }
}

/// A word of a line, as it stands there. Contracts see it as its bytes.
#[derive(Clone, Debug, Drop)]
pub struct Word {
    bytes: Vec<u8>,
}

impl Model for Word {
    ghost use Rattle.std.specs.Prelude.{List, ℕ};

    ghost Value = { List ℕ };

    ghost view = { λ word. word.bytes.items };
}

impl Word {
    /// The word of these bytes.
    pub fn from_vec(items: Vec<u8>) -> Self
        ensures { result ≡ items.items }
    {
        Word { bytes: items }
    }

    /// The bytes of the word.
    pub fn items(&self) -> &[u8]
        ensures { result.now ≡ self.now }
    {
        self.bytes.as_slice()
    }

    /// Whether the word is this text.
    pub fn is(&self, text: &[u8]) -> bool
        ensures { result ≡ bytes_eq self.now text.now }
    {
        self.bytes.as_slice() == text
    }
}
