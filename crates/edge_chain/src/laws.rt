//! What holds of chains beyond their definition, as functions that do nothing but have a contract.
ghost use Rattle.edge_chain.specs.Laws.{OneChain, EmptyWhereNone, ChainsAreShort};

/// Points have one chain on a hand of a line at most: two lists that meet the description are one.
pub fn one_chain()
    ensures { OneChain }
{}

/// A chain has no point exactly where no point lies strictly on the hand.
pub fn empty_where_none()
    ensures { EmptyWhereNone }
{}

/// However many points a chain has, it isn't long: from the source round it to the receiver it leads at most 48 km along
/// the axes of the plan, there and back alike.
pub fn chains_are_short()
    ensures { ChainsAreShort }
{}
