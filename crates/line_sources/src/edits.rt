//! The edits of a line, and whether a scene accepts them.
ghost use Rattle.std.specs.Prelude.{◌≡◌, ◌++◌, OnOk};
ghost use Rattle.scene_parts.specs.Answers.{MatchesUnlessMemory};
ghost use Rattle.scene_book.specs.Applying.{lacks_memory};
ghost use Rattle.line_sources.specs.Pieces.{puts, removes, all_accepted};

use scene_book::{Edit, EditFault, Scene};
use scene_parts::{Name, NoMemory, Part, PointSource};
use std::alloc::Global;
use std::marker::Model;

/// The edits of a line, in their order. Contracts see it as the list of them.
#[derive(Debug, Drop)]
pub struct LineEdits {
    edits: Vec<Edit>,
}

impl Model for LineEdits {
    ghost use Rattle.std.specs.Prelude.{List};
    ghost use Rattle.scene_book.specs.declared.edits.Edit.{Edit};

    ghost Value = { List Edit };

    ghost view = { λ line. line.edits.items };
}

impl LineEdits {
    /// These edits.
    pub(crate) fn from_vec(edits: Vec<Edit>) -> Self
        ensures { result ≡ edits.items }
    {
        LineEdits { edits }
    }

    /// The edits.
    pub fn items(&self) -> &[Edit]
        ensures { result.now ≡ self.now }
    {
        self.edits.as_slice()
    }

    /// The edits, one after another.
    pub fn into_vec(self) -> Vec<Edit>
        ensures { result.items ≡ self }
    {
        self.edits
    }
}

/// Adds the puts of these sources.
pub(crate) fn add_puts(edits: &mut Vec<Edit>, sources: Vec<PointSource>) -> Result<(), NoMemory>
    ensures { OnOk result (edits.new.items ≡ edits.old.items ++ puts sources.items) }
{
    for source in sources {
        edits.push(Edit::Put(Part::Source(source)))?;
    }
    Ok(())
}

/// Adds the removes of these names.
pub(crate) fn add_removes(edits: &mut Vec<Edit>, names: Vec<Name>) -> Result<(), NoMemory>
    ensures { OnOk result (edits.new.items ≡ edits.old.items ++ removes names.items) }
{
    for name in names {
        edits.push(Edit::Remove(name))?;
    }
    Ok(())
}

/// Whether a scene accepts these edits one after the other, or the first fault. The scene stays as it is: the edits are
/// applied to a copy.
pub(crate) fn try_all(alloc: Global, edits: &[Edit], scene: &Scene) -> Result<(), EditFault>
    ensures { MatchesUnlessMemory lacks_memory result (all_accepted edits.now scene.now) }
{
    let mut after = scene.copy()?;
    for edit in edits {
        after.apply(alloc, edit)?;
    }
    Ok(())
}
