//! Edits of a scene, and why one is refused.
use scene_parts::{Checked, Class, GridSpec, Name, NoMemory, Part, SetSpec};

/// An edit of a scene.
#[derive(Debug, Drop)]
pub enum Edit {
    /// Puts a part: in the place of the part of its name, else at the end of its list.
    Put(Part),
    /// Takes the part of a name out.
    Remove(Name),
    /// Puts the receivers of a grid, row by row.
    Grid(GridSpec),
    /// Sets some of the globals.
    Set(SetSpec),
}

/// Why an edit is refused. `NoMemory` can come at any time; of the others the first in this order is the answer.
#[derive(Debug, Drop)]
pub enum EditFault {
    /// There was no memory for the edit.
    NoMemory,
    /// No part bears the name that is to be removed.
    NoSuchName { name: Name },
    /// The name is borne by a part of another class.
    OtherClass { name: Name, class: Class },
    /// The edit would leave more parts of this class than the limit.
    Full { class: Class, limit: u32 },
}

/// An accepted edit, and the part that its put replaced or its remove took out.
#[derive(Debug, Drop)]
pub struct Logged {
    pub edit: Edit,
    pub old: Option<Part>,
}

impl From<Checked> for Edit {
    ghost use Rattle.std.specs.Prelude.{◌≡◌};
    ghost use Rattle.scene_book.specs.Edits.{edit_of};

    ghost from_gives = { λ checked edit. edit ≡ edit_of checked };

    /// A part is put, a grid's receivers are put, a setting is set.
    fn from(checked: Checked) -> Edit {
        match checked {
            Checked::Part(part) => Edit::Put(part),
            Checked::Grid(grid) => Edit::Grid(grid),
            Checked::Set(setting) => Edit::Set(setting),
        }
    }
}

impl From<NoMemory> for EditFault {
    ghost use Rattle.std.specs.Prelude.{◌≡◌};
    ghost use Rattle.scene_book.specs.declared.edits.EditFault.TheVariants as faults;

    ghost from_gives = { λ _ e. e ≡ faults.NoMemory };

    fn from(_want: NoMemory) -> EditFault {
        EditFault::NoMemory
    }
}
