//! The receivers that a contour asks for.
ghost use Rattle.std.specs.Prelude.{◌≡◌, ◌<◌, [], ◌∷◌, IfOk, not, find};
ghost use Rattle.scene_parts.specs.Limits.{most_columns};
ghost use Rattle.scene_parts.specs.Names.{IsName};
ghost use Rattle.scene_book.specs.Grid.{name_in};
ghost use Rattle.level_contours.specs.GridNames.{names_along, names_of, first_missing_of, NamesAreOfGrid};
ghost use Rattle.level_contours.specs.inner.Filing.{is_absent};

use crate::lookup::filed;
use crate::names::name_at;
use command_lines::ContourSpec;
use indexmap::IndexMap;
use scene_book::Scene;
use scene_parts::{Name, NoMemory};
use std::alloc::Global;

/// The first receiver that a contour asks for and a scene lacks, in the order in which a grid of its name puts them; `None`
/// where all are there.
pub fn first_missing(
    alloc: Global,
    spec: &ContourSpec,
    scene: &Scene,
) -> Result<Option<Name>, NoMemory>
    ensures missing { IfOk result (λ missing. missing ≡ first_missing_of spec.now scene.now) }
    ensures order { NamesAreOfGrid spec.now }
{
    missing_of(alloc, spec, scene)
}

fn missing_of(alloc: Global, spec: &ContourSpec, scene: &Scene) -> Result<Option<Name>, NoMemory>
    ensures { IfOk result (λ missing. missing ≡ first_missing_of spec.now scene.now) }
{
    let names = filed(alloc, scene.receivers())?;
    find_missing(alloc, &names, spec)
}

/// The first name of a contour that isn't among these.
fn find_missing(
    alloc: Global,
    names: &IndexMap<Vec<u8>, ()>,
    spec: &ContourSpec,
) -> Result<Option<Name>, NoMemory>
    ensures { IfOk result (λ missing. missing
        ≡ find (is_absent names.now.entries) (names_of spec.now)) }
{
    for row in 0..spec.rows {
        let missing = missing_in_row(alloc, names, spec, row)?;
        if missing.is_some() {
            return Ok(missing);
        }
    }
    Ok(None)
}

/// The first of a row.
fn missing_in_row(
    alloc: Global,
    names: &IndexMap<Vec<u8>, ()>,
    spec: &ContourSpec,
    row: u32,
) -> Result<Option<Name>, NoMemory>
    requires { row < most_columns }
    ensures { IfOk result (λ missing. missing
        ≡ find (is_absent names.now.entries) (names_along spec.now.name row 0 spec.now.columns)) }
{
    for column in 0..spec.columns {
        let missing = missing_at(alloc, names, spec.name.items(), row, column)?;
        if missing.is_some() {
            return Ok(missing);
        }
    }
    Ok(None)
}

/// The name of a row and a column, if it isn't among these.
fn missing_at(
    alloc: Global,
    names: &IndexMap<Vec<u8>, ()>,
    name: &[u8],
    row: u32,
    column: u32,
) -> Result<Option<Name>, NoMemory>
    requires name { IsName name.now }
    requires row { row < most_columns }
    requires column { column < most_columns }
    ensures { IfOk result (λ missing. missing
        ≡ find (is_absent names.now.entries) (name_in name.now row column ∷ [])) }
{
    let bytes = name_at(alloc, name, row, column)?;
    if is_there(names, bytes.as_slice()) {
        return Ok(None);
    }
    Ok(Some(Name::from_vec(bytes)))
}

#[tactic(auto, unfolding(crate::specs::inner::Filing::is_absent))]
fn is_there(names: &IndexMap<Vec<u8>, ()>, name: &[u8]) -> bool
    ensures { not result ≡ is_absent names.now.entries name.now }
{
    names.get(name).is_some()
}
