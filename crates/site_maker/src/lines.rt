//! The lines of input that put parts.
ghost use Rattle.std.specs.Prelude.{◌≡◌, ℕ, ◌<◌, List, IfOk, map, nat_lt, codes, string_bytes, if◌then◌else◌};
ghost use Rattle.site_maker.specs.Json.{IsText, whole, array};
ghost use Rattle.site_maker.specs.Parts.{point, corners, diagonal, source_line, building_line, barrier_line, zone_line};

use crate::memory::NoMemory;
use crate::rectangle::Rectangle;
use std::alloc::Global;

fn point(alloc: Global, x: i32, y: i32) -> Result<String, NoMemory>
    ensures { IfOk result (λ text. IsText (point x y) (string_bytes text)) }
{
    Ok(format!(in alloc; "[{x},{y}]")?)
}

/// The corners of a rectangle, from the lower left one on, counterclockwise.
fn corners(alloc: Global, of: &Rectangle) -> Result<String, NoMemory>
    ensures { IfOk result (λ text. IsText (corners of.now) (string_bytes text)) }
{
    let first = point(alloc, of.left, of.bottom)?;
    let second = point(alloc, of.right, of.bottom)?;
    let third = point(alloc, of.right, of.top)?;
    let last = point(alloc, of.left, of.top)?;
    Ok(format!(in alloc; "[{first},{second},{third},{last}]")?)
}

/// The lower left corner of a rectangle and its upper right one.
fn diagonal(alloc: Global, of: &Rectangle) -> Result<String, NoMemory>
    ensures { IfOk result (λ text. IsText (diagonal of.now) (string_bytes text)) }
{
    let first = point(alloc, of.left, of.bottom)?;
    let last = point(alloc, of.right, of.top)?;
    Ok(format!(in alloc; "[{first},{last}]")?)
}

fn comma_before(place: usize) -> &'static str
    ensures { result.now ≡ (if nat_lt 0 place then codes "," else codes "") }
{
    if place > 0 { "," } else { "" }
}

fn numbers(alloc: Global, numbers: &[u32]) -> Result<String, NoMemory>
    ensures { IfOk result (λ text. IsText (array (map whole numbers.now)) (string_bytes text)) }
{
    let mut text = String::from_str(alloc, "[")?;
    for (place, number) in numbers.iter().enumerate() {
        let comma = comma_before(place);
        write!(text, "{comma}{number}")?;
    }
    text.push_str("]")?;
    Ok(text)
}

pub(crate) fn source_line(
    alloc: Global,
    number: u32,
    x: i32,
    y: i32,
    h: u32,
    lw: &[u32],
) -> Result<String, NoMemory>
    ensures { IfOk result (λ line. string_bytes line ≡ source_line number x y h lw.now) }
{
    let lw = numbers(alloc, lw)?;
    Ok(format!(in alloc;
        "{{\"do\":\"source\",\"name\":\"s{number}\",\"kind\":\"industry\",\"x\":{x},\"y\":{y},\"h\":{h},\"lw\":{lw}}}\n"
    )?)
}

pub(crate) fn building_line(
    alloc: Global,
    number: u32,
    base: &Rectangle,
    h: u32,
    rho: u32,
) -> Result<String, NoMemory>
    ensures { IfOk result (λ line. string_bytes line ≡ building_line number base.now h rho) }
{
    let points = corners(alloc, base)?;
    Ok(format!(in alloc;
        "{{\"do\":\"building\",\"name\":\"b{number}\",\"points\":{points},\"h\":{h},\"rho\":{rho}}}\n"
    )?)
}

pub(crate) fn barrier_line(
    alloc: Global,
    number: u32,
    along: &Rectangle,
    h: u32,
) -> Result<String, NoMemory>
    ensures { IfOk result (λ line. string_bytes line ≡ barrier_line number along.now h) }
{
    let points = diagonal(alloc, along)?;
    Ok(format!(in alloc;
        "{{\"do\":\"barrier\",\"name\":\"w{number}\",\"points\":{points},\"h\":{h},\"density\":20}}\n"
    )?)
}

pub(crate) fn zone_line(
    alloc: Global,
    number: u32,
    outline: &Rectangle,
    g: u32,
) -> Result<String, NoMemory>
    ensures { IfOk result (λ line. string_bytes line ≡ zone_line number outline.now g) }
{
    let points = corners(alloc, outline)?;
    Ok(format!(in alloc;
        "{{\"do\":\"zone\",\"name\":\"z{number}\",\"points\":{points},\"g\":{g}}}\n"
    )?)
}
