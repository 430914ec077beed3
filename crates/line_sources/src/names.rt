//! The names of pieces: the line's name, `/` and a number.
ghost use Rattle.std.specs.Prelude.{◌≡◌, ◌<◌, IfOk};
ghost use Rattle.std.specs.List.{list_all};
ghost use Rattle.std.specs.Char.{is_ascii_digit};
ghost use Rattle.scene_parts.specs.Names.{IsName};
ghost use Rattle.line_sources.specs.Pieces.{numbered as numbered_of, is_numeral as is_numeral_of, is_piece as is_piece_of};

use scene_parts::{Name, NoMemory};
use std::alloc::Global;

/// The name of a piece.
pub(crate) fn numbered(alloc: Global, name: &[u8], number: u32) -> Result<Name, NoMemory>
    requires name { IsName name.now }
    requires number { number < 4096 }
    ensures { IfOk result (λ made. made ≡ numbered_of name.now number) }
{
    let mut bytes = name.to_vec(alloc)?;
    bytes.push(b'/')?;
    let number = number.to_string(alloc)?;
    bytes.extend_from_slice(number.as_bytes())?;
    Ok(Name::from_vec(bytes))
}

/// Whether a text is the name of a piece of the line of a name.
pub(crate) fn is_piece(name: &[u8], text: &[u8]) -> bool
    ensures { result ≡ is_piece_of name.now text.now }
{
    name.len() < text.len()
        && &text[..name.len()] == name
        && text[name.len()] == b'/'
        && is_numeral(&text[name.len() + 1..])
}

/// Whether a text is a number as it is printed.
fn is_numeral(digits: &[u8]) -> bool
    ensures { result ≡ is_numeral_of digits.now }
{
    0 < digits.len() && are_digits(digits) && (b'0' < digits[0] || digits.len() == 1)
}

fn are_digits(text: &[u8]) -> bool
    ensures { result ≡ list_all is_ascii_digit text.now }
{
    text.iter().all(|byte| byte.is_ascii_digit())
}
