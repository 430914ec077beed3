//! Pairs of edges over both of which sound may bend.

ghost use Rattle.std.specs.Prelude.{◌≡◌, ◌<◌, ◌+◌, ◌∷◌, [], length, drop, flat_map, All, OnOk};
ghost use Rattle.term_barrier.specs.Screening.{pairs_of, both_ways, edges_in};
ghost use Rattle.term_barrier.specs.inner.Prepared.{passage_of, risen, Adds, IsSingle};

use crate::pair::DoubleDiffraction;
use crate::pair::edge_pair::EdgePair;
use crate::single::SingleDiffraction;
use crate::single::passage::EdgePassage;
use fix_interval::Iv;
use path_shape::Path;
use scene_parts::NoMemory;

/// A list has room for at least so many pairs, so that one that is lent to many paths hardly ever grows.
const LEAST_ROOM: usize = 64;

/// The ordered pairs of edges that rise above the line of sight, but those over which sound never bends: such a pair is at
/// 0 dB in every band. They stand in place of what a list held.
pub(crate) fn prepare_pairs(
    pairs: &mut Vec<EdgePair>,
    path: &Path,
    singles: &[SingleDiffraction],
    d: Iv,
) -> Result<(), NoMemory>
    requires { All (IsSingle path.now d) singles.now }
    ensures { OnOk result (Adds path.now d [] pairs.new.items
        (pairs_of (risen 0 (edges_in singles.now)))) }
{
    pairs.clear();
    pairs.reserve(LEAST_ROOM)?;
    for i in 0..singles.len() {
        let first = &singles[i].passage;
        if first.edge.above {
            add_pairs(pairs, path, i, first, singles, d)?;
        }
    }
    Ok(())
}

/// Adds the pairs of an edge, numbered `i`, and each one behind it in the list, in either order.
fn add_pairs(
    pairs: &mut Vec<EdgePair>,
    path: &Path,
    i: usize,
    first: &EdgePassage,
    singles: &[SingleDiffraction],
    d: Iv,
) -> Result<(), NoMemory>
    requires index { i < length singles.now }
    requires first { first.now ≡ passage_of path.now first.now.edge }
    requires singles { All (IsSingle path.now d) singles.now }
    ensures { OnOk result (Adds path.now d pairs.old.items pairs.new.items
        (flat_map (both_ways (i, first.now.edge))
        (risen (i + 1) (edges_in (drop (i + 1) singles.now))))) }
{
    for j in i + 1..singles.len() {
        let second = &singles[j].passage;
        if second.edge.above {
            add_pair(pairs, path, i, first, j, second, d)?;
            add_pair(pairs, path, j, second, i, first, d)?;
        }
    }
    Ok(())
}

/// Adds two edges, numbered `i` and `j`, where sound may bend over both.
fn add_pair(
    pairs: &mut Vec<EdgePair>,
    path: &Path,
    i: usize,
    first: &EdgePassage,
    j: usize,
    second: &EdgePassage,
    d: Iv,
) -> Result<(), NoMemory>
    requires first { first.now ≡ passage_of path.now first.now.edge }
    requires second { second.now ≡ passage_of path.now second.now.edge }
    ensures { OnOk result (Adds path.now d pairs.old.items pairs.new.items
        (((i, first.now.edge), (j, second.now.edge)) ∷ [])) }
{
    if let Some(diffraction) = DoubleDiffraction::of(path, first, second, d) {
        pairs.push(EdgePair {
            first: i,
            second: j,
            diffraction,
        })?;
    }
    Ok(())
}
