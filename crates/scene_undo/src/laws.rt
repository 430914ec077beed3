//! Laws of undoing. Each function does nothing: its contract is the law.
ghost use Rattle.scene_book.specs.Book.{empty_book};
ghost use Rattle.scene_undo.specs.Scenes.{IsScene};
ghost use Rattle.scene_undo.specs.Laws.{SceneIsKept, EditsAgree, UndoLaw, InverseIsOfEdits, TrailLaw};

/// Edits lead from scenes to scenes, the first of which is empty.
pub fn edits_keep_scenes()
    ensures first { IsScene empty_book }
    ensures kept { SceneIsKept }
{}

/// Scenes of the same parts answer an edit alike.
pub fn edits_agree()
    ensures { EditsAgree }
{}

/// An edit's inverse leads back, and is made of edits.
pub fn inverses_undo()
    ensures undone { UndoLaw }
    ensures edits { InverseIsOfEdits }
{}

/// The inverses of several edits, the last first, lead back to the scene before the first.
pub fn trails_lead_back()
    ensures { TrailLaw }
{}
