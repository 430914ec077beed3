//! The values of options.
ghost use Rattle.std.specs.Char.{is_ascii_digit};
ghost use Rattle.std.specs.List.{list_all};
ghost use Rattle.std.specs.Prelude.{◌≡◌, Some, None, if◌then◌else◌};
ghost use Rattle.command_words.specs.Words.{is_number as is_number_in, is_workers, number};

/// Whether a text is one to six ASCII digits.
fn is_number(text: &str) -> bool
    ensures { result ≡ is_number_in text.now }
{
    1 <= text.len() && text.len() <= 6 && are_digits(text.as_bytes())
}

fn are_digits(bytes: &[u8]) -> bool
    ensures { result ≡ list_all is_ascii_digit bytes.now }
{
    bytes.iter().all(|byte| byte.is_ascii_digit())
}

/// The number that one to six ASCII digits write.
pub fn number_in(text: &str) -> Option<u32>
    ensures { result ≡ if is_number_in text.now then Some (number text.now) else None }
{
    if is_number(text) {
        text.parse::<u32>().ok()
    } else {
        None
    }
}

/// The number of workers that a value asks for, at most 16.
pub fn workers_in(text: &str) -> Option<u8>
    ensures { result ≡ if is_workers text.now then Some (number text.now) else None }
{
    let workers = number_in(text)?;
    if workers <= 16 {
        Some(workers as u8)
    } else {
        None
    }
}
