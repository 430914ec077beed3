//! What holds of cuts beyond their definitions, as functions that do nothing but have a contract.
ghost use Rattle.sight_cut.specs.Laws.{CrossingsAreEdges, CutsTellScreens};

/// The crossings in a band are its edges, in the same order, and its cuts tell which obstacles screen.
pub fn cuts_are_edges()
    ensures edges { CrossingsAreEdges }
    ensures screens { CutsTellScreens }
{}
