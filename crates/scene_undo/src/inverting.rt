//! The edits that undo an edit.
ghost use Rattle.std.specs.Prelude.{◌≡◌, [], ◌∷◌, map, IfOk};
ghost use Rattle.scene_book.specs.Applying.{part_named};
ghost use Rattle.scene_undo.specs.Inverse.{inverse_of, put_back as put_back_of};
ghost use Rattle.scene_undo.specs.Laws.{IsUndone};

use super::edits::Inverse;
use scene_book::grids::receivers;
use scene_book::{Edit, Scene, part_name};
use scene_parts::{Name, NoMemory, Receiver, SetSpec};
use std::alloc::Global;

/// What undoes an edit of a scene that accepts it: of a put the old part's put, or the remove of a new name; of a removal
/// the old part's put; of a grid the same for each of its receivers, in order; of a setting the setting of all old
/// globals. Where edits made the scene before, these are accepted from any scene of the parts that the edit left, and lead
/// to the parts that were.
pub fn inverse(alloc: Global, edit: &Edit, before: &Scene) -> Result<Inverse, NoMemory>
    ensures value { IfOk result (λ inverse. inverse ≡ inverse_of edit.now before.now) }
    ensures undone { IfOk result (λ inverse. IsUndone edit.now before.now inverse) }
{
    let edits = edits_back(alloc, edit, before)?;
    Ok(Inverse::from_vec(edits))
}

/// The edits that undo an edit of a scene.
fn edits_back(alloc: Global, edit: &Edit, before: &Scene) -> Result<Vec<Edit>, NoMemory>
    ensures { IfOk result (λ edits. edits.items ≡ inverse_of edit.now before.now) }
{
    match edit {
        Edit::Put(part) => one(alloc, put_back(part_name(part), before)?),
        Edit::Remove(name) => one(alloc, put_back(name, before)?),
        Edit::Grid(grid) => all_put_back(alloc, &receivers(alloc, grid)?, before),
        Edit::Set(_) => one(alloc, Edit::Set(SetSpec::of(before.globals()))),
    }
}

fn one(alloc: Global, edit: Edit) -> Result<Vec<Edit>, NoMemory>
    ensures { IfOk result (λ edits. edits.items ≡ edit ∷ []) }
{
    let mut edits = Vec::new(alloc);
    edits.push(edit)?;
    Ok(edits)
}

/// What gives a name back to the part that bore it, or to none: the part's put, or the name's remove.
fn put_back(name: &Name, before: &Scene) -> Result<Edit, NoMemory>
    ensures { IfOk result (λ edit. edit ≡ put_back_of name.now (part_named before.now name.now)) }
{
    match before.part(name.items())? {
        Some(part) => Ok(Edit::Put(part)),
        None => Ok(Edit::Remove(name.clone()?)),
    }
}

/// The same for the name of each of these receivers.
fn all_put_back(
    alloc: Global,
    receivers: &[Receiver],
    before: &Scene,
) -> Result<Vec<Edit>, NoMemory>
    ensures { IfOk result (λ edits. edits.items
        ≡ map (λ name. put_back_of name (part_named before.now name)) (map (λ r. r.name) receivers.now)) }
{
    let mut edits = Vec::new(alloc);
    for receiver in receivers {
        edits.push(put_back(&receiver.name, before)?)?;
    }
    Ok(edits)
}
