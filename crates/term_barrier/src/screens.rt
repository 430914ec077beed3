//! Screening over the top, with what the bands of a path share calculated once.

pub(crate) mod edges;
pub(crate) mod max_with;

ghost use Rattle.std.specs.Prelude.{◌≡◌, All, IfOk};
ghost use Rattle.fix_interval.specs.Tree.{Known, enc};
ghost use Rattle.term_barrier.specs.Edges.{FitsEdge};
ghost use Rattle.term_barrier.specs.Limits.{IsGroundEffect, IsScreening};
ghost use Rattle.term_barrier.specs.Screening.{marked, screening};

use crate::pair::edge_pair::EdgePair;
use crate::pair::pairing::prepare_pairs;
use crate::screens::edges::{best_over, greatest_argument, prepare};
use crate::single::SingleDiffraction;
use crate::single::formulas::{below_line, less_ground};
use fix_interval::Iv;
use path_shape::Path;
use scene_geom::Band;
use scene_parts::{Edge, NoMemory};
use std::alloc::Global;
use std::marker::Model;

/// Memory for what the bands of a path share of its edges: lent to one path after another, it is asked for once.
#[derive(Drop)]
pub struct EdgeBuffers {
    singles: Vec<SingleDiffraction>,
    pairs: Vec<EdgePair>,
}

impl EdgeBuffers {
    /// No memory so far: the first path asks for it.
    pub fn new(alloc: Global) -> EdgeBuffers {
        EdgeBuffers {
            singles: Vec::new(alloc),
            pairs: Vec::new(alloc),
        }
    }
}

/// The edges that a path passes, and what its bands share of them: z and K_met of each edge, and e, z and K_met of each two
/// that rise above the line of sight and over both of which sound may bend. It is seen as the path, the edges, and how far
/// source and receiver are apart.
#[derive(Drop)]
pub struct Screens<'a> {
    path: Path,
    d: Iv,
    singles: &'a [SingleDiffraction],
    pairs: &'a [EdgePair],
}

impl<'a> Model for Screens<'a> {
    ghost use Rattle.term_barrier.specs.Screening.{Passing, edges_in};
    ghost use Rattle.term_barrier.specs.inner.Prepared.{ArePrepared};

    ghost Value = { Passing };

    ghost view = { λ s. record { path = s.path; edges = edges_in s.singles.now; d = s.d } };

    ghost invariant = { λ s. ArePrepared s.path s.d s.singles.now s.pairs.now };
}

impl<'a> Screens<'a> {
    /// What the bands share of a path that passes these edges, where source and receiver are `d` apart, in metres. It stands
    /// in buffers that the caller lends, in place of what they held.
    pub fn of(
        buffers: &'a mut EdgeBuffers,
        path: &Path,
        edges: &[Edge],
        d: Iv,
    ) -> Result<Screens<'a>, NoMemory>
        requires { All FitsEdge edges.now }
        ensures { IfOk result
            (λ screens. screens ≡ record { path = path.now; edges = edges.now; d = d }) }
    {
        prepare(&mut buffers.singles, path, edges, d)?;
        prepare_pairs(&mut buffers.pairs, path, buffers.singles.as_slice(), d)?;
        Ok(Screens {
            path: *path,
            d,
            singles: buffers.singles.as_slice(),
            pairs: buffers.pairs.as_slice(),
        })
    }

    /// A_bar over the top in dB (ISO 9613-2, equation 12), in a band in which the obstacles of the marked edges are large
    /// enough and the attenuation by the ground is `gr`; a mark for each edge, in their order. Where `gr` is from -16 dB to
    /// 2^26 dB, it is from 0 dB to 48 dB.
    pub fn a_bar(&self, marks: &[bool], gr: Iv, band: Band) -> Iv
        ensures value { let s = self.now in result
            ≡ enc (screening s.path (Known s.path.dp) (marked marks.now s.edges)
            (Known s.d) (Known gr) band) }
        ensures bounds { IsGroundEffect gr → IsScreening result }
    {
        match best_over(&self.path, self.d, self.singles, self.pairs, marks, band) {
            Some(best) => less_ground(best, gr),
            None => below_line(greatest_argument(self.singles, marks, band), gr),
        }
    }
}
