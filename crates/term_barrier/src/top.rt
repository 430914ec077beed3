//! Screening over the top, of a single band.

ghost use Rattle.std.specs.Prelude.{◌≡◌, ◌≤ℤ◌, pos, None, map, flat_map, All, IfSome};
ghost use Rattle.fix_interval.specs.Bounds.{IsBetween};
ghost use Rattle.fix_interval.specs.Tree.{Known, enc};
ghost use Rattle.term_barrier.specs.Edges.{FitsEdge};
ghost use Rattle.term_barrier.specs.Limits.{most_top, IsGroundEffect, IsScreening};
ghost use Rattle.term_barrier.specs.Screening.{edges_above, pairs_of, both_ways, top_attenuation, screening};
ghost use Rattle.term_barrier.specs.inner.Prepared.{passage_of, greatest_from, single_value, both_value, best_argument};
ghost use Rattle.term_barrier.specs.inner.Prepared as prepared;

use crate::pair::DoubleDiffraction;
use crate::screens::max_with::max_with;
use crate::single::SingleDiffraction;
use crate::single::formulas::{below_line, less_ground, single_attenuation};
use crate::single::passage::EdgePassage;
use fix_interval::{Iv, exact};
use path_shape::Path;
use scene_geom::Band;
use scene_parts::Edge;

/// D_z over the top in dB (ISO 9613-2, equation 14), in a band: the greatest over all edges that rise above the line of
/// sight and all two of them over both of which sound bends, and 0 dB where none rises. Source and receiver are `d` apart,
/// in metres. Its ends are from 0 dB to 25 dB, but that the low one may be unbounded.
pub fn d_z_top(path: &Path, edges: &[Edge], d: Iv, band: Band) -> Iv
    requires { All FitsEdge edges.now }
    ensures value { result
        ≡ enc (top_attenuation path.now (Known path.now.dp) edges.now (Known d) band) }
    ensures low { IfSome result.lo (λ z. (pos 0 ≤ℤ z) × (z ≤ℤ most_top)) }
    ensures high { IsBetween (pos 0) most_top result.hi }
{
    match best_over(path, edges, d, band) {
        Some(best) => best,
        None => exact(0),
    }
}

/// A_bar over the top in dB (ISO 9613-2, equation 12), in a band in which the obstacles of all these edges are large
/// enough and the attenuation by the ground is `gr`. Source and receiver are `d` apart, in metres. Where `gr` is from
/// -16 dB to 2^26 dB, it is from 0 dB to 48 dB.
pub fn a_bar(path: &Path, edges: &[Edge], d: Iv, gr: Iv, band: Band) -> Iv
    requires { All FitsEdge edges.now }
    ensures value { result
        ≡ enc (screening path.now (Known path.now.dp) edges.now (Known d) (Known gr) band) }
    ensures bounds { IsGroundEffect gr → IsScreening result }
{
    match best_over(path, edges, d, band) {
        Some(best) => less_ground(best, gr),
        None => below_line(greatest_argument(path, edges, d, band), gr),
    }
}

/// The greatest D_z, where an edge rises above the line of sight.
fn best_over(path: &Path, edges: &[Edge], d: Iv, band: Band) -> Option<Iv>
    requires { All FitsEdge edges.now }
    ensures { result ≡ prepared.best_over path.now d band edges.now }
{
    let mut best = best_alone(path, edges, d, band);
    let mut edges = edges;
    while let Some((first, others)) = edges.split_first() {
        if first.above {
            best = best_with(best, path, &EdgePassage::of(path, first), others, d, band);
        }
        edges = others;
    }
    best
}

/// The greatest D_z of an edge alone.
fn best_alone(path: &Path, edges: &[Edge], d: Iv, band: Band) -> Option<Iv>
    requires { All FitsEdge edges.now }
    ensures { result
        ≡ greatest_from None (map (single_value path.now d band) (edges_above edges.now)) }
{
    let mut best = None;
    for edge in edges {
        if edge.above {
            let b = SingleDiffraction::of(path, edge, d).argument(band);
            best = max_with(best, single_attenuation(b));
        }
    }
    best
}

/// The greatest so far, and D_z of an edge with each other one, in either order.
fn best_with(
    best: Option<Iv>,
    path: &Path,
    edge: &EdgePassage,
    others: &[Edge],
    d: Iv,
    band: Band,
) -> Option<Iv>
    requires passage { edge.now ≡ passage_of path.now edge.now.edge }
    requires others { All FitsEdge others.now }
    ensures { result
        ≡ greatest_from best
        (map (both_value path.now d band)
        (flat_map (both_ways edge.now.edge) (edges_above others.now))) }
{
    let mut best = best;
    for other in others {
        if other.above {
            let other = EdgePassage::of(path, other);
            let there = DoubleDiffraction::attenuation_of(path, edge, &other, d, band);
            let back = DoubleDiffraction::attenuation_of(path, &other, edge, d, band);
            best = max_with(max_with(best, there), back);
        }
    }
    best
}

/// The greatest that stands under the logarithm of an edge alone.
fn greatest_argument(path: &Path, edges: &[Edge], d: Iv, band: Band) -> Option<Iv>
    requires { All FitsEdge edges.now }
    ensures { result ≡ best_argument path.now d band edges.now }
{
    let mut best = None;
    for edge in edges {
        best = max_with(best, SingleDiffraction::of(path, edge, d).argument(band));
    }
    best
}
