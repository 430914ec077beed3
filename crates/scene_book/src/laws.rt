//! Laws of edits on the lists of a scene. Each function does nothing: its contract is the law.
ghost use Rattle.scene_book.specs.Laws.{PutIsEdit, RemovalIsEdit, FlatMapStays, FilterStays, AnyStays, AcceptedChanges};

/// A put and a removal change one piece of a list.
pub fn puts_and_removals_are_edits<A>()
    ensures put { PutIsEdit A }
    ensures removal { RemovalIsEdit A }
{}

/// Where nothing is made of the pieces of an edit, the same is made of both lists.
pub fn flat_map_stays<A, B>()
    ensures { FlatMapStays A B }
{}

/// Where nothing in the pieces of an edit passes a test, the same passes of both lists.
pub fn filter_and_any_stay<A>()
    ensures filter { FilterStays A }
    ensures any { AnyStays A }
{}

/// An accepted edit changes pieces of the scene's lists, or the globals, and nothing else.
pub fn accepted_edits_change_pieces()
    ensures { AcceptedChanges }
{}
