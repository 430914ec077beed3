//! Diffraction at a single edge.

pub(crate) mod components;
pub(crate) mod formulas;
pub(crate) mod passage;
mod vanishing;

ghost use Rattle.std.specs.Prelude.{◌≡◌};
ghost use Rattle.fix_interval.specs.Tree.{Known, Mul, enc};
ghost use Rattle.term_barrier.specs.Diffraction.{at_one_edge, three_and};
ghost use Rattle.term_barrier.specs.Edges.{FitsEdge};
ghost use Rattle.term_barrier.specs.Edges as form;
ghost use Rattle.term_barrier.specs.inner.Prepared.{single_of};

use crate::single::formulas::{at_one_edge, k_met, path_difference, three_and};
use crate::single::passage::{EdgePassage, slant};
use fix_interval::{Iv, add, mul, neg};
use path_shape::Path;
use scene_geom::Band;
use scene_parts::Edge;

/// Diffraction at a single edge: how the path passes it, z in metres, and K_met.
#[derive(Clone, Copy, Drop)]
pub(crate) struct SingleDiffraction {
    pub passage: EdgePassage,
    pub z: Iv,
    pub k: Iv,
}

impl SingleDiffraction {
    /// Diffraction at an edge on a path whose source and receiver are `d` apart, in metres.
    pub(crate) fn of(path: &Path, edge: &Edge, d: Iv) -> SingleDiffraction
        requires { FitsEdge edge.now }
        ensures { result ≡ single_of path.now d edge.now }
    {
        let passage = EdgePassage::of(path, edge);
        let d_sr = slant(mul(passage.rest, passage.x), passage.over_receiver);
        let over = path_difference(add(passage.d_ss, d_sr), passage.y_square, d);
        let z = negated_below(edge.above, over);
        let k = k_met(passage.d_ss, d_sr, d, z);
        SingleDiffraction { passage, z, k }
    }

    /// What stands under the logarithm in a band: 3 + (C_2 / λ) z K_met.
    pub(crate) fn argument(&self, band: Band) -> Iv
        ensures { result
            ≡ enc (three_and (Mul (at_one_edge band (Known self.now.z)) (Known self.now.k))) }
    {
        three_and(mul(at_one_edge(band, self.z), self.k))
    }
}

/// z, negated where the edge doesn't rise above the line of sight.
fn negated_below(above: bool, z: Iv) -> Iv
    ensures { result ≡ enc (form.negated_below above (Known z)) }
{
    if above { z } else { neg(z) }
}
