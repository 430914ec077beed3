//! The edges of a path: what its bands share of each alone, and the greatest that a band finds among marked ones.

ghost use Rattle.std.specs.Prelude.{◌≡◌, ◌<◌, ◌+◌, Some, None, length, map, flat_map, is_some, ◌&&◌, All, IfSome, OnOk};
ghost use Rattle.fix_interval.specs.Tree.{Known, enc};
ghost use Rattle.term_barrier.specs.Diffraction.{attenuation, single_limit, double_limit};
ghost use Rattle.term_barrier.specs.Edges.{FitsEdge};
ghost use Rattle.term_barrier.specs.Screening.{marked, pairs_of, both_ways, edges_in};
ghost use Rattle.term_barrier.specs.inner.Prepared.{joint_value, known_argument, rising_from, ArePrepared, IsSingle};
ghost use Rattle.term_barrier.specs.inner.Prepared.{greatest_from, edge_pair_value, marked_values, best_marked, Decides, IsDecided};
ghost use Rattle.term_barrier.specs.inner.Prepared as prepared;

use crate::pair::DoubleDiffraction;
use crate::pair::edge_pair::EdgePair;
use crate::pair::reach::growth;
use crate::screens::max_with::max_with;
use crate::single::SingleDiffraction;
use crate::single::formulas::{double_attenuation, single_attenuation};
use fix_interval::{Iv, exact, max, min};
use path_shape::Path;
use scene_geom::Band;
use scene_parts::{Edge, NoMemory};

/// Each edge of a path alone, in place of what a list held.
pub(crate) fn prepare(
    singles: &mut Vec<SingleDiffraction>,
    path: &Path,
    edges: &[Edge],
    d: Iv,
) -> Result<(), NoMemory>
    requires { All FitsEdge edges.now }
    ensures edges { OnOk result (edges_in singles.new.items ≡ edges.now) }
    ensures singles { OnOk result (All (IsSingle path.now d) singles.new.items) }
{
    singles.clear();
    singles.reserve(edges.len())?;
    for edge in edges {
        singles.push(SingleDiffraction::of(path, edge, d))?;
    }
    Ok(())
}

/// The greatest D_z of marked edges that rise above the line of sight and of each two of them, where one rises. Where all
/// high ends under their logarithms are bounded, the greatest number decides, by one logarithm. Else each has a logarithm of
/// its own: ten times one with an unbounded end has no bounds at all, but that of another edge has, and the 0 dB of a pair
/// that wasn't kept has too, so that all pairs are made anew.
pub(crate) fn best_over(
    path: &Path,
    d: Iv,
    singles: &[SingleDiffraction],
    pairs: &[EdgePair],
    marks: &[bool],
    band: Band,
) -> Option<Iv>
    requires { ArePrepared path.now d singles.now pairs.now }
    ensures { result ≡ best_marked path.now d band marks.now singles.now }
{
    match deciding_argument(singles, pairs, marks, band) {
        Some(argument) => Some(double_attenuation(argument)),
        None => best_pair(
            best_alone(singles, marks, band),
            path,
            d,
            singles,
            marks,
            band,
        ),
    }
}

/// The number of which D_z, as that of two edges, is the greatest, where an edge rises above the line of sight and all high
/// ends are bounded. A single edge is at its 20 dB from 100 on, so its number counts as at most that. From there on D_z
/// isn't below 0 dB, so that pairs over which sound never bends, which weren't kept, don't count.
fn deciding_argument(
    singles: &[SingleDiffraction],
    pairs: &[EdgePair],
    marks: &[bool],
    band: Band,
) -> Option<Iv>
    ensures { IfSome result (λ b. IsDecided band marks.now singles.now pairs.now b) }
{
    let alone = greatest_above(singles, marks, band)?;
    if !is_bounded(alone) {
        return None;
    }
    let most = greatest_with_pairs(min(exact(100), alone), pairs, marks, band);
    if is_bounded(most) { Some(most) } else { None }
}

/// Whether a high end is bounded.
fn is_bounded(b: Iv) -> bool
    ensures { result ≡ is_some b.hi }
{
    b.high().is_some()
}

/// The greatest that stands under the logarithm of a marked edge alone, where one rises above the line of sight.
fn greatest_above(singles: &[SingleDiffraction], marks: &[bool], band: Band) -> Option<Iv>
    ensures { IfSome result
        (λ b. Decides single_limit b (prepared.best_alone band marks.now singles.now)) }
{
    let mut best = None;
    for i in 0..singles.len() {
        let single = &singles[i];
        if is_marked(marks, i) && single.passage.edge.above {
            best = max_with(best, single.argument(band));
        }
    }
    best
}

/// The greatest of a number and what stands under the logarithm of each two edges that are both marked. A pair is passed
/// over where neither end of its number can be above that end of the greatest so far.
fn greatest_with_pairs(least: Iv, pairs: &[EdgePair], marks: &[bool], band: Band) -> Iv
    ensures { Decides double_limit result
        (greatest_from (Some (enc (attenuation double_limit (Known least))))
        (marked_values marks.now (map (edge_pair_value band) pairs.now))) }
{
    let growth = growth(band);
    let mut best = least;
    for pair in pairs {
        if !pair.diffraction.is_passed(best, growth) && are_marked(marks, pair) {
            best = max(best, pair.diffraction.argument(band));
        }
    }
    best
}

/// The greatest D_z of a marked edge alone, where one rises above the line of sight.
fn best_alone(singles: &[SingleDiffraction], marks: &[bool], band: Band) -> Option<Iv>
    ensures { result ≡ prepared.best_alone band marks.now singles.now }
{
    let mut best = None;
    for i in 0..singles.len() {
        let single = &singles[i];
        if is_marked(marks, i) && single.passage.edge.above {
            best = max_with(best, single_attenuation(single.argument(band)));
        }
    }
    best
}

/// The greatest so far, and D_z of each two marked edges that rise above the line of sight.
fn best_pair(
    best: Option<Iv>,
    path: &Path,
    d: Iv,
    singles: &[SingleDiffraction],
    marks: &[bool],
    band: Band,
) -> Option<Iv>
    requires { All (IsSingle path.now d) singles.now }
    ensures { result ≡ greatest_from best
        (map (joint_value path.now d band) (pairs_of (rising_from 0 marks.now singles.now))) }
{
    let mut best = best;
    for i in 0..singles.len() {
        let single = &singles[i];
        if is_marked(marks, i) && single.passage.edge.above {
            best = best_with(best, path, d, i, single, singles, marks, band);
        }
    }
    best
}

/// The greatest so far, and D_z of an edge, numbered `i`, with each marked one behind it in the list that rises above the
/// line of sight, in either order.
fn best_with(
    best: Option<Iv>,
    path: &Path,
    d: Iv,
    i: usize,
    first: &SingleDiffraction,
    singles: &[SingleDiffraction],
    marks: &[bool],
    band: Band,
) -> Option<Iv>
    requires index { i < length singles.now }
    requires first { IsSingle path.now d first.now }
    requires singles { All (IsSingle path.now d) singles.now }
    ensures { result ≡ greatest_from best
        (map (joint_value path.now d band)
        (flat_map (both_ways first.now) (rising_from (i + 1) marks.now singles.now))) }
{
    let mut best = best;
    for j in i + 1..singles.len() {
        let second = &singles[j];
        if is_marked(marks, j) && second.passage.edge.above {
            let there = DoubleDiffraction::attenuation_of(
                path,
                &first.passage,
                &second.passage,
                d,
                band,
            );
            let back = DoubleDiffraction::attenuation_of(
                path,
                &second.passage,
                &first.passage,
                d,
                band,
            );
            best = max_with(max_with(best, there), back);
        }
    }
    best
}

/// The greatest that stands under the logarithm of a marked edge alone.
pub(crate) fn greatest_argument(
    singles: &[SingleDiffraction],
    marks: &[bool],
    band: Band,
) -> Option<Iv>
    ensures { result
        ≡ greatest_from None (map (known_argument band) (marked marks.now singles.now)) }
{
    let mut best = None;
    for i in 0..singles.len() {
        let single = &singles[i];
        if is_marked(marks, i) {
            best = max_with(best, single.argument(band));
        }
    }
    best
}

/// Whether the numbers of both edges are marked by true.
fn are_marked(marks: &[bool], pair: &EdgePair) -> bool
    ensures { result
        ≡ (prepared.is_marked marks.now pair.now.first
        && prepared.is_marked marks.now pair.now.second) }
{
    is_marked(marks, pair.first) && is_marked(marks, pair.second)
}

/// Whether a number is marked by true.
fn is_marked(marks: &[bool], i: usize) -> bool
    ensures { result ≡ prepared.is_marked marks.now i }
{
    match marks.get(i) {
        Some(mark) => *mark,
        None => false,
    }
}
