//! The edits of a board that name receivers: small entries that are kept for ever.
ghost use Rattle.std.specs.Prelude.{◌≡◌, ◌++◌, ◌<◌, IfOk, OnOk, vec_len, vec_capacity};
ghost use Rattle.map_board.specs.inner.FirstNaming.{first_noted, has_name};
ghost use Rattle.map_board.specs.inner.Changes.{grid_put};
ghost use Rattle.map_board.specs.inner.Namings.{named_part as receivers_of_part, naming_of, noted};

use crate::jobs::name_copies::NameCopy;
use scene_book::Edit;
use scene_parts::{GridSpec, NoMemory, Part};
use touch_test::puts;

/// The receivers that an edit puts or removes.
#[derive(Drop)]
pub(crate) enum NamedReceivers {
    One(NameCopy),
    Grid(GridSpec),
}

/// The version of an edit that names receivers, and which.
#[derive(Drop)]
pub(crate) struct Naming {
    pub version: u64,
    pub receivers: NamedReceivers,
}

/// A copy of the grid that an edit puts, if it puts one.
pub(crate) fn grid_of(edit: &Edit) -> Result<Option<GridSpec>, NoMemory>
    ensures { IfOk result (λ grid. grid ≡ grid_put edit.now) }
{
    match edit {
        Edit::Grid(grid) => Ok(Some(grid.clone()?)),
        _ => Ok(None),
    }
}

/// The receivers that an edit with its old part puts or removes, if there are any.
pub(crate) fn named_receivers(
    edit: &Edit,
    old: &Option<Part>,
    grid: Option<GridSpec>,
) -> Option<NamedReceivers>
    requires { grid ≡ grid_put edit.now }
    ensures { result ≡ naming_of edit.now old.now }
{
    match edit {
        Edit::Put(part) => named_part(part),
        Edit::Remove(_) => match old {
            Some(part) => named_part(part),
            None => None,
        },
        Edit::Grid(_) => match grid {
            Some(grid) => Some(NamedReceivers::Grid(grid)),
            None => None,
        },
        Edit::Set(_) => None,
    }
}

/// The receiver that a part is.
fn named_part(part: &Part) -> Option<NamedReceivers>
    ensures { result ≡ receivers_of_part part.now }
{
    match part {
        Part::Receiver(receiver) => Some(NamedReceivers::One(NameCopy::of(&receiver.name))),
        _ => None,
    }
}

/// Makes room for the naming of one edit more.
pub(crate) fn room_for_naming(namings: &mut Vec<Naming>) -> Result<(), NoMemory>
    ensures same { namings.new.items ≡ namings.old.items }
    ensures room { OnOk result (vec_len namings.new < vec_capacity namings.new) }
{
    namings.reserve(1)?;
    Ok(())
}

/// Notes the edit of a version, where it names receivers.
pub(crate) fn note(namings: &mut Vec<Naming>, version: u64, named: Option<NamedReceivers>)
    requires { vec_len namings.old < vec_capacity namings.old }
    ensures { namings.new.items ≡ namings.old.items ++ noted version named }
{
    if let Some(receivers) = named {
        namings.push_reserved(Naming { version, receivers });
    }
}

impl NamedReceivers {
    /// Whether one of these receivers has a name.
    fn has(&self, name: &[u8]) -> bool
        ensures { result ≡ has_name name.now self.now }
    {
        match self {
            NamedReceivers::One(other) => other.items() == name,
            NamedReceivers::Grid(grid) => puts(grid, name),
        }
    }
}

/// The version of the first edit after a version that names a receiver.
pub(crate) fn first_naming(namings: &[Naming], version: u64, name: &[u8]) -> Option<u64>
    ensures { result ≡ first_noted version name.now namings.now }
{
    for naming in namings {
        if version < naming.version && naming.receivers.has(name) {
            return Some(naming.version);
        }
    }
    None
}
