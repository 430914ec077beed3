//! The words that put parts and set globals: what a line gives for each, before it is checked.
ghost use Rattle.std.specs.Prelude.{Err};
ghost use Rattle.serde_json.specs.View.{view};
ghost use Rattle.scene_parts.specs.Answers.{MatchesUnlessMemory};
ghost use Rattle.command_lines.specs.Answers.{lacks_memory};
ghost use Rattle.command_lines.specs.Words.{source_word, barrier_word, building_word, zone_word, foliage_word, receiver_word, grid_word, set_word, given, part_of};

use crate::faults::LineFault;
use crate::values::fields::{
    bytes_of, first_missing, needed_name, needed_points, needed_powers, needed_whole, needed_word,
    optional_whole, optional_word,
};
use scene_parts::{Field, RawPart, Word};
use serde_json::Value;
use std::alloc::Global;

/// What a line gives for its word.
#[tactic(auto, unfolding(crate::specs::Words::part_of))]
pub fn part(alloc: Global, word: &str, line: &Value) -> Result<RawPart, LineFault>
    ensures { MatchesUnlessMemory lacks_memory result (part_of word.now (view line.now)) }
{
    match word {
        "source" => source(alloc, line),
        "barrier" => barrier(alloc, line),
        "building" => building(alloc, line),
        "zone" => zone(alloc, line),
        "foliage" => foliage(alloc, line),
        "receiver" => receiver(alloc, line),
        "grid" => grid(alloc, line),
        "set" => setting(alloc, line),
        other => unknown(alloc, other),
    }
}

/// That there is no such word.
fn unknown(alloc: Global, word: &str) -> Result<RawPart, LineFault>
    ensures { MatchesUnlessMemory lacks_memory result (Err (LineFault.UnknownDo word.now)) }
{
    Err(LineFault::UnknownDo {
        word: Word::from_vec(bytes_of(alloc, word)?),
    })
}

/// The fields that a source needs, in the order in which one is found missing.
const SOURCE_FIELDS: [Field; 6] = [
    Field::Name,
    Field::Kind,
    Field::X,
    Field::Y,
    Field::H,
    Field::Lw,
];

/// A source that a line gives.
#[tactic(auto, unfolding(crate::specs::Fields::with_fields, crate::specs::Words::given))]
fn source(alloc: Global, line: &Value) -> Result<RawPart, LineFault>
    ensures { MatchesUnlessMemory lacks_memory result (given source_word (view line.now)) }
{
    if let Some(field) = first_missing(line, &SOURCE_FIELDS) {
        return Err(LineFault::Missing { field });
    }
    Ok(RawPart::Source {
        name: needed_name(alloc, line, Field::Name)?,
        kind: needed_word(alloc, line, Field::Kind)?,
        x: needed_whole(line, Field::X)?,
        y: needed_whole(line, Field::Y)?,
        h: needed_whole(line, Field::H)?,
        lw: needed_powers(line, Field::Lw)?,
        dc: optional_whole(line, Field::Dc)?.unwrap_or(0),
    })
}

/// The fields that a barrier needs, in the order in which one is found missing.
const BARRIER_FIELDS: [Field; 4] = [Field::Name, Field::Points, Field::H, Field::Density];

/// A barrier that a line gives.
#[tactic(auto, unfolding(crate::specs::Fields::with_fields, crate::specs::Words::given))]
fn barrier(alloc: Global, line: &Value) -> Result<RawPart, LineFault>
    ensures { MatchesUnlessMemory lacks_memory result (given barrier_word (view line.now)) }
{
    if let Some(field) = first_missing(line, &BARRIER_FIELDS) {
        return Err(LineFault::Missing { field });
    }
    Ok(RawPart::Barrier {
        name: needed_name(alloc, line, Field::Name)?,
        points: needed_points(alloc, line, Field::Points)?,
        h: needed_whole(line, Field::H)?,
        density: needed_whole(line, Field::Density)?,
        rho: optional_whole(line, Field::Rho)?.unwrap_or(0),
    })
}

/// The fields that a building needs, in the order in which one is found missing.
const BUILDING_FIELDS: [Field; 3] = [Field::Name, Field::Points, Field::H];

/// A building that a line gives.
#[tactic(auto, unfolding(crate::specs::Fields::with_fields, crate::specs::Words::given))]
fn building(alloc: Global, line: &Value) -> Result<RawPart, LineFault>
    ensures { MatchesUnlessMemory lacks_memory result (given building_word (view line.now)) }
{
    if let Some(field) = first_missing(line, &BUILDING_FIELDS) {
        return Err(LineFault::Missing { field });
    }
    Ok(RawPart::Building {
        name: needed_name(alloc, line, Field::Name)?,
        points: needed_points(alloc, line, Field::Points)?,
        h: needed_whole(line, Field::H)?,
        rho: optional_whole(line, Field::Rho)?.unwrap_or(0),
    })
}

/// The fields that a zone needs, in the order in which one is found missing.
const ZONE_FIELDS: [Field; 3] = [Field::Name, Field::Points, Field::G];

/// A zone that a line gives.
#[tactic(auto, unfolding(crate::specs::Fields::with_fields, crate::specs::Words::given))]
fn zone(alloc: Global, line: &Value) -> Result<RawPart, LineFault>
    ensures { MatchesUnlessMemory lacks_memory result (given zone_word (view line.now)) }
{
    if let Some(field) = first_missing(line, &ZONE_FIELDS) {
        return Err(LineFault::Missing { field });
    }
    Ok(RawPart::Zone {
        name: needed_name(alloc, line, Field::Name)?,
        points: needed_points(alloc, line, Field::Points)?,
        g: needed_whole(line, Field::G)?,
    })
}

/// The fields that foliage needs, in the order in which one is found missing.
const FOLIAGE_FIELDS: [Field; 3] = [Field::Name, Field::Points, Field::H];

/// A foliage that a line gives.
#[tactic(auto, unfolding(crate::specs::Fields::with_fields, crate::specs::Words::given))]
fn foliage(alloc: Global, line: &Value) -> Result<RawPart, LineFault>
    ensures { MatchesUnlessMemory lacks_memory result (given foliage_word (view line.now)) }
{
    if let Some(field) = first_missing(line, &FOLIAGE_FIELDS) {
        return Err(LineFault::Missing { field });
    }
    Ok(RawPart::Foliage {
        name: needed_name(alloc, line, Field::Name)?,
        points: needed_points(alloc, line, Field::Points)?,
        h: needed_whole(line, Field::H)?,
    })
}

/// The fields that a receiver needs, in the order in which one is found missing.
const RECEIVER_FIELDS: [Field; 4] = [Field::Name, Field::X, Field::Y, Field::H];

/// A receiver that a line gives.
#[tactic(auto, unfolding(crate::specs::Fields::with_fields, crate::specs::Words::given))]
fn receiver(alloc: Global, line: &Value) -> Result<RawPart, LineFault>
    ensures { MatchesUnlessMemory lacks_memory result (given receiver_word (view line.now)) }
{
    if let Some(field) = first_missing(line, &RECEIVER_FIELDS) {
        return Err(LineFault::Missing { field });
    }
    Ok(RawPart::Receiver {
        name: needed_name(alloc, line, Field::Name)?,
        x: needed_whole(line, Field::X)?,
        y: needed_whole(line, Field::Y)?,
        h: needed_whole(line, Field::H)?,
    })
}

/// The fields that a grid needs, in the order in which one is found missing.
const GRID_FIELDS: [Field; 7] = [
    Field::Name,
    Field::X,
    Field::Y,
    Field::Step,
    Field::Columns,
    Field::Rows,
    Field::H,
];

/// A grid that a line gives.
#[tactic(auto, unfolding(crate::specs::Fields::with_fields, crate::specs::Words::given))]
fn grid(alloc: Global, line: &Value) -> Result<RawPart, LineFault>
    ensures { MatchesUnlessMemory lacks_memory result (given grid_word (view line.now)) }
{
    if let Some(field) = first_missing(line, &GRID_FIELDS) {
        return Err(LineFault::Missing { field });
    }
    Ok(RawPart::Grid {
        name: needed_name(alloc, line, Field::Name)?,
        x: needed_whole(line, Field::X)?,
        y: needed_whole(line, Field::Y)?,
        step: needed_whole(line, Field::Step)?,
        columns: needed_whole(line, Field::Columns)?,
        rows: needed_whole(line, Field::Rows)?,
        h: needed_whole(line, Field::H)?,
    })
}

/// A setting that a line gives.
#[tactic(auto, unfolding(crate::specs::Fields::with_fields, crate::specs::Words::given))]
fn setting(alloc: Global, line: &Value) -> Result<RawPart, LineFault>
    ensures { MatchesUnlessMemory lacks_memory result (given set_word (view line.now)) }
{
    Ok(RawPart::Set {
        reach: optional_whole(line, Field::Reach)?,
        g: optional_whole(line, Field::G)?,
        air: optional_word(alloc, line, Field::Air)?,
        c0: optional_whole(line, Field::C0)?,
        ground: optional_word(alloc, line, Field::Ground)?,
    })
}
