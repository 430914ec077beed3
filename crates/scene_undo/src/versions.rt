//! The versions that an undo may name, and the ways back from them.
ghost use Rattle.std.specs.Prelude.{◌≡◌, ◌<◌, ◌==◌, true, IfOk, OnOk, IsErr, vec_len, vec_capacity};
ghost use Rattle.std.specs.List.{list_any};
ghost use Rattle.scene_book.specs.Book.{Book};
ghost use Rattle.scene_book.specs.Applying.{apply_of};
ghost use Rattle.scene_undo.specs.Versions.{is_kept, is_too_large, kept_in, IsCut, IsCutShort};

use super::edits::Inverse;
use scene_book::Edit;
use scene_book::limits::MAX_RECEIVERS;
use scene_parts::NoMemory;
use std::alloc::Global;

/// A version that is kept beside 0, and the edits that undo the edit that made it.
#[derive(Drop)]
pub struct KeptVersion {
    pub version: u64,
    pub back: Inverse,
}

/// Whether a version is kept. 0 always is.
pub fn keeps(kept: &[KeptVersion], version: u64) -> bool
    ensures { result ≡ is_kept version (kept_in kept.now) }
{
    version == 0 || is_among(kept, version)
}

fn is_among(kept: &[KeptVersion], version: u64) -> bool
    ensures { result ≡ list_any (λ one. one.version == version) kept.now }
{
    kept.iter().any(|one| one.version == version)
}

/// Whether an edit puts more receivers at once than a scene holds, so that every scene refuses it.
pub fn never_fits(edit: &Edit) -> bool
    ensures value { result ≡ is_too_large edit.now }
    ensures refused { result ≡ true → (book : Book) → IsErr (apply_of edit.now book) }
{
    match edit {
        Edit::Grid(grid) => {
            u64::from(grid.columns) * u64::from(grid.rows) > u64::from(MAX_RECEIVERS)
        }
        _ => false,
    }
}

/// Makes room for one more, so that it can be kept without memory. Where there is none for that, the list is as before.
pub fn make_room(kept: &mut Vec<KeptVersion>) -> Result<(), NoMemory>
    ensures same { kept.new.items ≡ kept.old.items }
    ensures room { OnOk result (vec_len kept.new < vec_capacity kept.new) }
{
    Ok(kept.reserve(1)?)
}

/// Takes the versions after one out of a list in ascending order, and gives the edits that undo theirs, the last version
/// first. Without memory some of them may be gone, and no other.
pub fn take_later(
    alloc: Global,
    kept: &mut Vec<KeptVersion>,
    version: u64,
) -> Result<Vec<Edit>, NoMemory>
    ensures cut { IfOk result (λ edits. IsCut version kept.old.items kept.new.items edits.items) }
    ensures short { IsErr result → IsCutShort version kept.old.items kept.new.items }
{
    let mut edits = Vec::new(alloc);
    while let Some(one) = kept.pop() {
        if one.version <= version {
            kept.push_reserved(one);
            return Ok(edits);
        }
        let mut back = one.back.into_vec();
        edits.append(&mut back)?;
    }
    Ok(edits)
}
