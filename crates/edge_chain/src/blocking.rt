//! Whether a side stands in the way of a string.
ghost use Rattle.std.specs.Prelude.{◌≡◌};
ghost use Rattle.edge_chain.specs.Chain.{blocks_chain};

use scene_geom::{Pt, Side, blocks};

/// Whether a side blocks a segment of the chain from a source to a receiver: its ends lie strictly on different sides of
/// the segment, and the segment's ends strictly on different sides of it. A side that meets the chain only in a corner
/// doesn't block it.
pub fn is_blocked(chain: &[Pt], s: Pt, r: Pt, side: Side) -> bool
    ensures { result ≡ blocks_chain chain.now s r side }
{
    let mut from = s;
    for point in chain {
        if blocks(side, from, *point) {
            return true;
        }
        from = *point;
    }
    blocks(side, from, r)
}
