//! The receivers that a grid puts, by their names.
ghost use Rattle.std.specs.Prelude.{◌≡◌, ◌↔◌, ℕ, ◌<◌, ◌≤◌, ◌++◌, ◌∷◌, length, slice_index, IsTrue, IfSome, Some, bytes_eq};
ghost use Rattle.std.specs.Bool.{then_some};
ghost use Rattle.std.specs.Str.{all_ascii_digits};
ghost use Rattle.std.specs.Fmt.{decimal};
ghost use Rattle.std.specs.List.{list_any};
ghost use Rattle.scene_parts.specs.Limits.{most_columns};
ghost use Rattle.scene_book.specs.Grid.{receivers_of};
ghost use Rattle.touch_test.specs.inner.Numbers.{read_on};

use scene_parts::GridSpec;

/// Whether a grid puts the receiver of a name, which reads `name/column/row`.
pub fn puts(grid: &GridSpec, name: &[u8]) -> bool
    ensures { result ≡ list_any (λ receiver. bytes_eq receiver.name name.now) (receivers_of grid.now) }
{
    match name.strip_prefix(grid.name.items()) {
        None => false,
        Some(rest) => is_place(rest, grid.columns, grid.rows),
    }
}

/// Whether a text reads `/column/row`, with numbers below these counts.
fn is_place(text: &[u8], columns: u32, rows: u32) -> bool
    requires columns { columns ≤ most_columns }
    requires rows { rows ≤ most_columns }
    ensures { IsTrue result ↔ (column : ℕ) × (row : ℕ) × (column < columns) × (row < rows)
        × (text.now ≡ 47 ∷ (decimal column ++ 47 ∷ decimal row)) }
{
    match text.split_first() {
        Some((first, numbers)) => *first == b'/' && are_numbers(numbers, columns, rows),
        None => false,
    }
}

/// Whether a text reads `column/row`, with numbers below these counts.
fn are_numbers(text: &[u8], columns: u32, rows: u32) -> bool
    requires columns { columns ≤ most_columns }
    requires rows { rows ≤ most_columns }
    ensures { IsTrue result ↔ (column : ℕ) × (row : ℕ) × (column < columns) × (row < rows)
        × (text.now ≡ decimal column ++ 47 ∷ decimal row) }
{
    for i in 0..text.len() {
        if text[i] == b'/' {
            return is_below(&text[..i], columns) && is_below(&text[i + 1..], rows);
        }
    }
    false
}

/// Whether a text is a number below a count, as a grid writes it.
fn is_below(text: &[u8], count: u32) -> bool
    requires { count ≤ most_columns }
    ensures { IsTrue result ↔ (n : ℕ) × (n < count) × (text.now ≡ decimal n) }
{
    match number(text) {
        Some(n) => n < count,
        None => false,
    }
}

/// The number that a text of at most four digits is, as it is written without zeros in front.
fn number(text: &[u8]) -> Option<u32>
    ensures written { IfSome result (λ n. text.now ≡ decimal n) }
    ensures read { (n : ℕ) → n < most_columns → text.now ≡ decimal n → result ≡ Some n }
{
    if has_form(text) { value(text) } else { None }
}

/// Whether a text has one to four bytes, of which the first is no zero with others behind it.
fn has_form(text: &[u8]) -> bool
    ensures { IsTrue result
        ↔ (0 < length text.now) × (length text.now ≤ 4) × (slice_index text.now 0 ≡ 48 → length text.now ≤ 1) }
{
    !text.is_empty() && text.len() <= 4 && (text[0] != b'0' || text.len() == 1)
}

/// What at most four digits say.
fn value(text: &[u8]) -> Option<u32>
    requires { length text.now ≤ 4 }
    ensures { result ≡ then_some (all_ascii_digits text.now) (read_on 0 text.now) }
{
    let mut n = 0;
    for byte in text {
        if !byte.is_ascii_digit() {
            return None;
        }
        n = 10 * n + u32::from(*byte - b'0');
    }
    Some(n)
}
