//! Numbers as fields of rows.
ghost use Rattle.std.specs.Prelude.{◌≡◌};

use arrayvec::ArrayString;
use itoa::{Buffer, Integer};

/// How many bytes the digits of a number take at most: those of the least one of 128 bits, with its sign.
pub const MAX_DIGITS: usize = 40;

/// The digits of a number. They take no memory.
pub fn digits<I: Integer>(number: I) -> ArrayString<MAX_DIGITS>
    ensures { result.bytes ≡ I.text number }
{
    let mut buffer = Buffer::new();
    let mut text = ArrayString::new();
    text.push_str(buffer.format(number));
    text
}
