//! The fields of a line and their types.
ghost use Rattle.std.specs.Prelude.{◌≡◌, true, None, Some, IfOk, IfErr, IfNone, option_map};
ghost use Rattle.serde_json.specs.View.{view};
ghost use Rattle.command_lines.specs.Answers.{Reads, ReadsField};
ghost use Rattle.command_lines.specs.Fields.{optional, needed as needed_entry, value_at, text_at, name_at, whole_at, points_at, powers_at, optional_whole_at, optional_text_at};
ghost use Rattle.command_lines.specs.inner.Needed.{is_there, AreThere, first_missing as first_missing_of};
ghost use Rattle.command_lines.specs.Fields as types;
ghost use Rattle.command_lines.specs.Values.{text_of, name_of, any_name_of, whole_of, points_of, powers_of};

use crate::faults::LineFault;
use crate::values::names::{is_part_name, is_plain_name};
use crate::values::points::points_in;
use crate::values::powers::powers_in;
use scene_parts::{Field, Name, NoMemory, PlainName, RawPoints, Word};
use serde_json::Value;
use std::alloc::Global;

/// The value of a field of a line, where it is there.
fn given(line: &Value, field: Field) -> Option<&Value>
    ensures { option_map (λ value. view value.now) result ≡ value_at field (view line.now) }
{
    line.get(field.word())
}

/// The value of a field of a line, or `Missing`.
pub fn needed(line: &Value, field: Field) -> Result<&Value, LineFault>
    ensures there { IfOk result (λ value. value_at field (view line.now) ≡ Some (view value.now)) }
    ensures missing { IfErr result (λ fault. value_at field (view line.now) ≡ None) }
    ensures fault { IfErr result (λ fault. fault ≡ LineFault.Missing field) }
{
    given(line, field).ok_or(LineFault::Missing { field })
}

/// The first of these fields that a line lacks.
pub fn first_missing(line: &Value, fields: &[Field]) -> Option<Field>
    ensures first { result ≡ first_missing_of (view line.now) fields.now }
    ensures there { IfNone result (AreThere (view line.now) fields.now) }
{
    for field in fields {
        if given(line, *field).is_none() {
            return Some(*field);
        }
    }
    None
}

/// The whole number of a field that a line has, or `WrongType`.
pub fn needed_whole(line: &Value, field: Field) -> Result<i64, LineFault>
    requires { is_there (view line.now) field ≡ true }
    ensures { ReadsField (view line.now) (needed_entry field types.whole) result
        (whole_at field (view line.now)) }
{
    whole(field, needed(line, field)?)
}

/// The text of a field that a line has, or `WrongType`.
pub fn needed_word(alloc: Global, line: &Value, field: Field) -> Result<Word, LineFault>
    requires { is_there (view line.now) field ≡ true }
    ensures { ReadsField (view line.now) (needed_entry field types.text) result
        (text_at field (view line.now)) }
{
    word(alloc, field, needed(line, field)?)
}

/// The name of a field that a line has, as a line gives it to a part, or `WrongType`.
pub fn needed_name(alloc: Global, line: &Value, field: Field) -> Result<PlainName, LineFault>
    requires { is_there (view line.now) field ≡ true }
    ensures { ReadsField (view line.now) (needed_entry field types.name) result
        (name_at field (view line.now)) }
{
    plain_name(alloc, field, needed(line, field)?)
}

/// The points of a field that a line has, or `WrongType`.
pub fn needed_points(alloc: Global, line: &Value, field: Field) -> Result<RawPoints, LineFault>
    requires { is_there (view line.now) field ≡ true }
    ensures { ReadsField (view line.now) (needed_entry field types.points) result
        (points_at field (view line.now)) }
{
    points(alloc, field, needed(line, field)?)
}

/// The sound power levels of a field that a line has, or `WrongType`.
pub fn needed_powers(line: &Value, field: Field) -> Result<[Option<i64>; 8], LineFault>
    requires { is_there (view line.now) field ≡ true }
    ensures { ReadsField (view line.now) (needed_entry field types.powers) result
        (powers_at field (view line.now)) }
{
    powers(field, needed(line, field)?)
}

/// A whole number, or `WrongType`.
pub fn whole(field: Field, value: &Value) -> Result<i64, LineFault>
    ensures { Reads field result (whole_of (view value.now)) }
{
    value.as_i64().ok_or(LineFault::WrongType { field })
}

/// A whole number where the line has the field, or `WrongType`.
pub fn optional_whole(line: &Value, field: Field) -> Result<Option<i64>, LineFault>
    ensures { ReadsField (view line.now) (optional field types.whole) result
        (optional_whole_at field (view line.now)) }
{
    match given(line, field) {
        None => Ok(None),
        Some(value) => Ok(Some(whole(field, value)?)),
    }
}

/// A text as it stands in the line, or `WrongType`.
pub fn text(field: Field, value: &Value) -> Result<&str, LineFault>
    ensures there { IfOk result (λ text. text_of (view value.now) ≡ Some text.now) }
    ensures wrong { IfErr result (λ fault. text_of (view value.now) ≡ None) }
    ensures fault { IfErr result (λ fault. fault ≡ LineFault.WrongType field) }
{
    value.as_str().ok_or(LineFault::WrongType { field })
}

/// The bytes of a text.
pub fn bytes_of(alloc: Global, text: &str) -> Result<Vec<u8>, NoMemory>
    ensures { IfOk result (λ bytes. bytes.items ≡ text.now) }
{
    Ok(text.as_bytes().to_vec(alloc)?)
}

/// A text, or `WrongType`.
pub fn word(alloc: Global, field: Field, value: &Value) -> Result<Word, LineFault>
    ensures { Reads field result (text_of (view value.now)) }
{
    let text = text(field, value)?;
    Ok(Word::from_vec(bytes_of(alloc, text)?))
}

/// A text where the line has the field, or `WrongType`.
pub fn optional_word(alloc: Global, line: &Value, field: Field) -> Result<Option<Word>, LineFault>
    ensures { ReadsField (view line.now) (optional field types.text) result
        (optional_text_at field (view line.now)) }
{
    match given(line, field) {
        None => Ok(None),
        Some(value) => Ok(Some(word(alloc, field, value)?)),
    }
}

/// A name as a line gives it to a part, or `WrongType`.
#[tactic(auto, unfolding(crate::specs::Values::name_of))]
pub fn plain_name(alloc: Global, field: Field, value: &Value) -> Result<PlainName, LineFault>
    ensures { Reads field result (name_of (view value.now)) }
{
    let text = text(field, value)?;
    if !is_plain_name(text.as_bytes()) {
        return Err(LineFault::WrongType { field });
    }
    Ok(PlainName::from_vec(bytes_of(alloc, text)?))
}

/// The name of any part, or `WrongType`.
#[tactic(auto, unfolding(crate::specs::Values::any_name_of))]
pub fn part_name(alloc: Global, field: Field, value: &Value) -> Result<Name, LineFault>
    ensures { Reads field result (any_name_of (view value.now)) }
{
    let text = text(field, value)?;
    if !is_part_name(text.as_bytes()) {
        return Err(LineFault::WrongType { field });
    }
    Ok(Name::from_vec(bytes_of(alloc, text)?))
}

/// Points, or `WrongType`.
pub fn points(alloc: Global, field: Field, value: &Value) -> Result<RawPoints, LineFault>
    ensures { Reads field result (points_of (view value.now)) }
{
    points_in(alloc, value)?.ok_or(LineFault::WrongType { field })
}

/// Sound power levels, or `WrongType`.
pub fn powers(field: Field, value: &Value) -> Result<[Option<i64>; 8], LineFault>
    ensures { Reads field result (powers_of (view value.now)) }
{
    powers_in(value).ok_or(LineFault::WrongType { field })
}
