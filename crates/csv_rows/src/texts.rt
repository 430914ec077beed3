//! Texts of rows, as lists.
use std::marker::Model;

/// The text of a row. Contracts see it as the list of its bytes.
#[derive(Drop)]
pub struct RowText {
    bytes: Vec<u8>,
}

impl Model for RowText {
    ghost use Rattle.std.specs.Prelude.{List, ℕ};

    ghost Value = { List ℕ };

    ghost view = { λ text. text.bytes.items };
}

impl RowText {
    ghost use Rattle.std.specs.Prelude.{◌≡◌};

    /// The text of these bytes.
    pub fn from_vec(items: Vec<u8>) -> Self
        ensures { result ≡ items.items }
    {
        RowText { bytes: items }
    }

    /// Its bytes.
    pub fn items(&self) -> &[u8]
        ensures { result.now ≡ self.now }
    {
        self.bytes.as_slice()
    }
}

/// Texts of rows in their order. Contracts see it as the list of them.
#[derive(Drop)]
pub struct RowTexts {
    rows: Vec<RowText>,
}

impl Model for RowTexts {
    ghost use Rattle.std.specs.Prelude.{List, ℕ};

    ghost Value = { List (List ℕ) };

    ghost view = { λ texts. texts.rows.items };
}

impl RowTexts {
    ghost use Rattle.std.specs.Prelude.{◌≡◌};

    /// The list of these texts.
    pub fn from_vec(items: Vec<RowText>) -> Self
        ensures { result ≡ items.items }
    {
        RowTexts { rows: items }
    }

    /// The texts in their order.
    pub fn items(&self) -> &[RowText]
        ensures { result.now ≡ self.now }
    {
        self.rows.as_slice()
    }
}
