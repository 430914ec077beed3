//! The editor of a run: its seat at the board, and what it knows of the newest version.
ghost use Rattle.std.specs.Prelude.{◌≡◌, [], IfOk, OnOk};
ghost use Rattle.scene_book.specs.Applying.{lacks_memory};
ghost use Rattle.map_board.specs.Journal.{book_after};
ghost use Rattle.noise_map.specs.inner.Steps.{Knows};

use map_lock::EditorSeat;
use scene_book::{Edit, EditFault, Scene};
use scene_parts::NoMemory;
use scene_undo::KeptVersion;
use std::alloc::Global;

/// The editor of a run.
#[derive(Drop)]
pub struct Editor {
    pub seat: EditorSeat,
    /// The scene of the newest version. Workers may hold the board's, so lines that must know the scene ask this one.
    pub scene: Scene,
    /// The newest version, which is how many edits were accepted.
    pub version: u64,
    /// The versions that an undo may name beside 0, in ascending order.
    pub kept: Vec<KeptVersion>,
}

impl Editor {
    /// An editor who has done nothing yet.
    pub fn new(alloc: Global, seat: EditorSeat) -> Result<Editor, NoMemory>
        requires { seat.mine ≡ [] }
        ensures seat { IfOk result (λ editor. editor.seat ≡ seat) }
        ensures knows { IfOk result Knows }
    {
        let scene = Scene::empty(alloc)?;
        Ok(Editor {
            seat,
            scene,
            version: 0,
            kept: Vec::new(alloc),
        })
    }
}

/// Makes an edit in a scene. Where the scene refuses it, it stays.
pub fn follow(scene: &mut Scene, alloc: Global, edit: &Edit) -> Result<(), NoMemory>
    ensures { OnOk result (scene.new ≡ book_after edit.now scene.old) }
{
    match scene.apply(alloc, edit) {
        Ok(_) => Ok(()),
        Err(EditFault::NoMemory) => Err(NoMemory),
        Err(_) => Ok(()),
    }
}

/// Whether an edit was refused for want of memory.
pub fn edit_lacks_memory(fault: &EditFault) -> bool
    ensures { result ≡ lacks_memory fault.now }
{
    matches!(fault, EditFault::NoMemory)
}
