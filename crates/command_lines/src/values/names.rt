//! Texts that may be names.
ghost use Rattle.std.specs.Prelude.{◌≡◌};
ghost use Rattle.std.specs.List.{list_all};
ghost use Rattle.scene_parts.specs.Names.{is_name_byte, is_any_name_byte, is_name, is_any_name};

/// Whether a text is 1 to 32 ASCII letters, digits, `_`, `-` and `.`.
pub fn is_plain_name(text: &[u8]) -> bool
    ensures { result ≡ is_name text.now }
{
    !text.is_empty() && text.len() <= 32 && all_stand_in_plain_names(text)
}

/// Whether a text is 1 to 42 of the same and `/`.
pub fn is_part_name(text: &[u8]) -> bool
    ensures { result ≡ is_any_name text.now }
{
    !text.is_empty() && text.len() <= 42 && all_stand_in_part_names(text)
}

fn all_stand_in_plain_names(text: &[u8]) -> bool
    ensures { result ≡ list_all is_name_byte text.now }
{
    text.iter().all(|byte| stands_in_plain_names(*byte))
}

fn all_stand_in_part_names(text: &[u8]) -> bool
    ensures { result ≡ list_all is_any_name_byte text.now }
{
    text.iter().all(|byte| stands_in_part_names(*byte))
}

fn stands_in_plain_names(byte: u8) -> bool
    ensures { result ≡ is_name_byte byte }
{
    byte.is_ascii_alphanumeric() || byte == b'_' || byte == b'-' || byte == b'.'
}

fn stands_in_part_names(byte: u8) -> bool
    ensures { result ≡ is_any_name_byte byte }
{
    stands_in_plain_names(byte) || byte == b'/'
}
