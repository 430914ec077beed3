//! The chain of points round which a string is stretched.
ghost use Rattle.std.specs.Prelude.{◌≡◌, ◌↔◌, [], IfOk, OnOk};
ghost use Rattle.edge_chain.specs.Chain.{IsChain, chain_of, points_beside};

use crate::base::Base;
use crate::hand::Hand;
use crate::winding::wind;
use scene_geom::Pt;
use scene_parts::NoMemory;
use std::alloc::Global;

/// The chain round points on one hand of the line from a source to a receiver, as a string stretched from the one to the
/// other round all that stands strictly on that hand touches it (ISO 9613-2, 7.4, equation 13): from each point of the
/// chain it goes on straight to the next, turning strictly away from the hand at each. It has no point where none lies
/// strictly on the hand. Points may come in any order and more than once.
pub fn chain(alloc: Global, points: &[Pt], s: Pt, r: Pt, hand: Hand) -> Result<Vec<Pt>, NoMemory>
    ensures chain { IfOk result (λ chain. IsChain points.now s r hand chain.items) }
    ensures value { IfOk result (λ chain. chain.items ≡ chain_of points.now s r hand) }
{
    let mut string = Vec::new(alloc);
    stretch(points, s, r, hand, &mut string)?;
    Ok(string)
}

/// What `chain` gives, in a list that is lent: what it held before goes.
pub fn stretch(
    points: &[Pt],
    s: Pt,
    r: Pt,
    hand: Hand,
    string: &mut Vec<Pt>,
) -> Result<(), NoMemory>
    ensures chain { OnOk result (IsChain points.now s r hand string.new.items) }
    ensures value { OnOk result (string.new.items ≡ chain_of points.now s r hand) }
{
    let base = Base { s, r, hand };
    string.clear();
    // room for all points and for the receiver, so that the list is made anew once at most
    string.reserve(points.len() + 1)?;
    base.add_points_beside(points, string)?;
    string.sort_unstable_by(|a, b| base.order(*a, *b));
    string.push(r)?;
    let begin = wind(string.as_mut_slice(), hand);
    let count = string.len() - begin - 1;
    string.as_mut_slice().rotate_left(begin);
    string.truncate(count);
    Ok(())
}
