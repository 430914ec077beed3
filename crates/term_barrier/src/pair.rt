//! Diffraction at two edges, one after another.

pub(crate) mod convexity;
pub(crate) mod edge_pair;
pub(crate) mod factors;
pub(crate) mod pairing;
pub(crate) mod reach;
pub(crate) mod spacing;

ghost use Rattle.std.specs.Prelude.{IfSome};
ghost use Rattle.std.proofs.Props.{props};
ghost use Rattle.term_barrier.specs.inner.Reaching.{IsReach};

use crate::pair::convexity::convexity;
use crate::pair::factors::Factors;
use crate::pair::reach::{reach, stays_below};
use crate::pair::spacing::EdgeSpacing;
use crate::single::formulas::{
    at_two_edges, double_attenuation, k_met, path_difference, three_and,
};
use crate::single::passage::{EdgePassage, slant};
use fix_interval::{Iv, Truth, add, exact, mul, pick, sub};
use path_shape::Path;
use scene_geom::Band;

/// Diffraction at two edges over both of which sound bends, or may bend: whether that is sure, what C_3 takes of the
/// distance between them, z in metres, K_met, and how far z and K_met reach at most, where that is known.
#[derive(Clone, Copy, Drop)]
pub(crate) struct DoubleDiffraction {
    pub reach: Option<Factors>,
    pub convex: Truth,
    pub spacing: EdgeSpacing,
    pub z: Iv,
    pub k: Iv,
    pub ghost reached: { IfSome reach (IsReach spacing z k) } by { Prim.hlevel props },
}

impl DoubleDiffraction {
    ghost use Rattle.std.specs.Prelude.{◌≡◌, ◌<◌, ◌^◌, IsTrue, IfSome, IfNone};
    ghost use Rattle.fix_interval.specs.Tree.{Known, enc};
    ghost use Rattle.scene_geom.specs.declared.band.Band.{Band};
    ghost use Rattle.term_barrier.specs.Diffraction.{attenuation, double_limit};
    ghost use Rattle.term_barrier.specs.inner.Reaching.{growth_of};
    ghost use Rattle.term_barrier.specs.inner.Prepared.{passage_of, both_value, pair_value, IsPair, IsNoPair, Passes};

    /// Diffraction at two edges on a path whose source and receiver are `d` apart, in metres. There is none where sound
    /// never bends over both: D_z is 0 then in every band.
    pub(crate) fn of(
        path: &Path,
        first: &EdgePassage,
        second: &EdgePassage,
        d: Iv,
    ) -> Option<DoubleDiffraction>
        requires first { first.now ≡ passage_of path.now first.now.edge }
        requires second { second.now ≡ passage_of path.now second.now.edge }
        ensures bends { IfSome result (IsPair path.now d first.now.edge second.now.edge) }
        ensures never { IfNone result (IsNoPair path.now d first.now.edge second.now.edge) }
    {
        let convex = convexity(first, second);
        if let Truth::Never = convex {
            return None;
        }
        let x = first.x;
        let d_sr = slant(mul(second.rest, x), second.over_receiver);
        let way = mul(sub(second.place, first.place), x);
        let e = slant(way, sub(second.height, first.height));
        let length = add(add(first.d_ss, d_sr), e);
        let z = path_difference(length, first.y_square, d);
        let k = k_met(first.d_ss, d_sr, d, z);
        let spacing = EdgeSpacing::of(e);
        Some(DoubleDiffraction {
            reach: reach(&spacing, z, k),
            convex,
            spacing,
            z,
            k,
        })
    }

    /// D_z in a band, in dB.
    pub(crate) fn attenuation(&self, band: Band) -> Iv
        ensures { result ≡ pair_value self.now band }
    {
        double_attenuation(self.argument(band))
    }

    /// What stands under the logarithm in a band, which is 1 where sound doesn't bend over both edges.
    pub(crate) fn argument(&self, band: Band) -> Iv
        ensures { pair_value self.now band ≡ enc (attenuation double_limit (Known result)) }
    {
        let b = three_and(mul(at_two_edges(band, &self.spacing, self.z), self.k));
        pick(self.convex, b, exact(1))
    }

    /// Whether the number can't raise the greatest so far, in a band with this growth: what each end of it is at most isn't
    /// above that end of the greatest.
    pub(crate) fn is_passed(&self, best: Iv, growth: u64) -> bool
        requires { growth < 2 ^ 43 }
        ensures { IsTrue result
            → (band : Band) → growth ≡ growth_of band → Passes best band self.now }
    {
        match self.reach {
            Some(factors) => stays_below(best, growth, factors),
            None => false,
        }
    }

    /// D_z of two edges in a band, in dB: 0 where sound never bends over both.
    pub(crate) fn attenuation_of(
        path: &Path,
        first: &EdgePassage,
        second: &EdgePassage,
        d: Iv,
        band: Band,
    ) -> Iv
        requires first { first.now ≡ passage_of path.now first.now.edge }
        requires second { second.now ≡ passage_of path.now second.now.edge }
        ensures { result ≡ both_value path.now d band (first.now.edge, second.now.edge) }
    {
        match DoubleDiffraction::of(path, first, second, d) {
            Some(pair) => pair.attenuation(band),
            None => exact(0),
        }
    }
}
