//! What all bands share of a path.
ghost use Rattle.std.specs.Prelude.{◌≡◌, ◌≤◌, All, OnOk, IfSome, vec_len};
ghost use Rattle.fix_interval.specs.Values.{sub_of};
ghost use Rattle.path_shape.specs.Shape.{IsPath};
ghost use Rattle.scene_parts.specs.Parts.{IsHeight};
ghost use Rattle.scene_parts.specs.declared.kinds.Ground.TheVariants as methods;
ghost use Rattle.path_calc.specs.inner.Hearing.{propagation_past, screened_by, bars_over, edges_among, is_asked, grounds_along, omega_along, ground_at, screening_at, power_at};
ghost use Rattle.path_calc.specs.inner.BarrierAttenuations.{no_attenuations};
ghost use Rattle.path_calc.specs.Prepared.{prepared_of};
ghost use Rattle.path_calc.specs.inner.Ends.{FitsEnds, IsBetween, direct_path_of};
ghost use Rattle.path_calc.specs.inner.Prepared.{IsEmission, IsSent};
ghost use Rattle.path_calc.specs.inner.Propagations.{IsPropagation, IsGroundBy, IsSimpleGround, IsSolidAngle};
ghost use Rattle.path_calc.specs.inner.Ranges.{IsPathSquare, IsUnscreened, IsScreened};
ghost use Rattle.path_shape.specs.Shape.{square_form};
ghost use Rattle.term_barrier.specs.Edges.{FitsEdge};
ghost use Rattle.term_barrier.specs.Limits.{IsDistance, IsGroundEffect};

use crate::direct::foliage::Losses;
use crate::direct::lengths::square_in_metres;
use crate::direct::screening::{BarrierAttenuations, over_top};
use crate::energies::small_sums::plus;
use crate::indexed::IndexedScene;
use crate::prepared::{PreparedReceiver, PreparedSource};
use crate::workspace::ScreeningBuffers;
use energy_sum::c_met;
use fix_interval::Iv;
use path_shape::Path;
use scene_geom::{Band, Frac};
use scene_parts::{Air, Crossing, Ends, Ground, NoMemory, PointSource, Receiver};
use std::alloc::Global;
use term_div_atm::a_div;
use term_ground::{a_gr_between, a_gr_simple, d_omega};

/// What all paths from a source to a receiver share: the scene, both ends, and what is prepared of them.
#[derive(Clone, Copy, Drop)]
pub(crate) struct Between<'a> {
    pub(crate) alloc: Global,
    pub(crate) scene: &'a IndexedScene<'a>,
    pub(crate) ends: Ends,
    pub(crate) from: &'a PreparedSource,
    pub(crate) to: &'a PreparedReceiver,
}

/// What the bands share of a path: the air, the distance in metres, the divergence there in dB, beside it the
/// attenuations by the ground, by screening over the top and by foliage in each band in dB, D_Omega in dB where the ground
/// goes by the alternative method, and C_met in dB. By how much a path is screened is the dearest of them: it is calculated
/// only in the bands that are asked for, and 0 dB stands in the others.
#[derive(Drop)]
pub(crate) struct Propagation {
    pub(crate) air: Air,
    pub(crate) distance: Iv,
    pub(crate) divergence: Iv,
    pub(crate) grounds: [Iv; 8],
    pub(crate) omega: Option<Iv>,
    pub(crate) screening: BarrierAttenuations,
    pub(crate) foliage: Losses,
    pub(crate) correction: Iv,
}

impl<'a> Between<'a> {
    /// What all paths from this source to this receiver share.
    #[inline(always)]
    pub(crate) fn of(
        alloc: Global,
        scene: &'a IndexedScene<'a>,
        source: &PointSource,
        from: &'a PreparedSource,
        receiver: &Receiver,
        to: &'a PreparedReceiver,
    ) -> Between<'a>
        requires source { from.now ≡ prepared_of source.now }
        requires receiver { to.now ≡ receiver.now.h }
        ensures scene { result.scene.now ≡ scene.now }
        ensures ends { IsBetween result source.now receiver.now }
        ensures fit { FitsEnds result }
    {
        let ends = Ends {
            s: source.at,
            hs: source.h,
            r: receiver.at,
            hr: receiver.h,
        };
        Between {
            alloc,
            scene,
            ends,
            from,
            to,
        }
    }

    /// The direct path.
    #[inline(always)]
    pub(crate) fn direct_path(&self) -> Path
        requires { FitsEnds self.now }
        ensures value { result ≡ direct_path_of self.now.ends }
        ensures shape { IsPath result }
    {
        let ends = self.ends;
        Path::direct(ends.s, ends.hs, ends.r, ends.hr)
    }

    /// The quantities of a path that nothing screens, of which the square of the plan length in mm² is this, over a distance
    /// in metres.
    #[inline(always)]
    pub(crate) fn in_the_open(&self, path: &Path, square: Frac, distance: Iv) -> Propagation
        requires path { IsPath path.now }
        requires source { self.now.from.now.h ≡ path.now.hs }
        requires receiver { self.now.to.now ≡ path.now.hr }
        requires source_height { IsHeight path.now.hs }
        requires receiver_height { IsHeight path.now.hr }
        requires square { IsPathSquare square }
        requires distance { IsDistance distance }
        ensures value { result
            ≡ propagation_past self.now.scene.now path.now square distance no_attenuations }
        ensures range { IsPropagation result }
    {
        let globals = self.scene.globals();
        Propagation {
            air: globals.air,
            distance,
            divergence: a_div(distance),
            grounds: self.grounds_along(path, distance),
            omega: omega(globals.ground, path, square),
            screening: BarrierAttenuations::none(),
            foliage: Losses::along(self.scene.foliage(), path, distance),
            correction: c_met(path.dp, path.hs, path.hr, globals.c0),
        }
    }

    /// The attenuation of a path by the ground in each band, by the method of the scene.
    fn grounds_along(&self, path: &Path, distance: Iv) -> [Iv; 8]
        requires path { IsPath path.now }
        requires source { self.now.from.now.h ≡ path.now.hs }
        requires receiver { self.now.to.now ≡ path.now.hr }
        requires source_height { IsHeight path.now.hs }
        requires receiver_height { IsHeight path.now.hr }
        requires distance { IsDistance distance }
        ensures value { result
            ≡ grounds_along self.now.scene.now.globals self.now.scene.now.zones path.now distance }
        ensures bounds { All IsGroundEffect result }
        ensures simple { self.now.scene.now.globals.method ≡ methods.Simple → All IsSimpleGround result }
    {
        let globals = self.scene.globals();
        match globals.ground {
            Ground::General => {
                let (source, receiver) = (self.from.decays(), self.to.decays());
                a_gr_between(self.scene.zones(), globals.g, path, source, receiver)
            }
            Ground::Simple => [a_gr_simple(path, distance); 8],
        }
    }
}

/// D_Omega of a path in dB, where the ground goes by the alternative method.
fn omega(method: Ground, path: &Path, square: Frac) -> Option<Iv>
    requires source_height { IsHeight path.now.hs }
    requires receiver_height { IsHeight path.now.hr }
    requires square { IsPathSquare square }
    ensures value { result ≡ omega_along method path.now (square_form square) }
    ensures bounds { IfSome result IsSolidAngle }
{
    match method {
        Ground::General => None,
        Ground::Simple => Some(d_omega(path, square_in_metres(square))),
    }
}

impl Propagation {
    /// Screens a path that was in the open over the top, by these sides that cross it, in the bands that are asked for. The
    /// buffers are lent to it.
    pub(crate) fn screen(
        &mut self,
        alloc: Global,
        crossings: &[Crossing],
        path: &Path,
        asked: &[bool; 8],
        buffers: &mut ScreeningBuffers,
    ) -> Result<(), NoMemory>
        requires range { IsPropagation self.old }
        requires edges { All (λ crossing. FitsEdge crossing.edge) crossings.now }
        ensures value { OnOk result (self.new ≡ screened_by self.old (bars_over path.now
            (λ band. edges_among band crossings.now) self.old.distance self.old.grounds (is_asked asked.now))) }
        ensures range { OnOk result (IsPropagation self.new) }
    {
        let (distance, grounds) = (self.distance, &self.grounds);
        self.screening = over_top(alloc, crossings, path, distance, grounds, asked, buffers)?;
        Ok(())
    }

    /// What is sent along the path of what is emitted, in dB: D_Omega is added, where there is one.
    pub(crate) fn power_of(&self, emission: Iv) -> Iv
        requires propagation { IsPropagation self.now }
        requires emission { IsEmission emission }
        ensures value { result ≡ power_at self.now emission }
        ensures bounds { IsSent self.now.omega result }
    {
        match self.omega {
            Some(omega) => plus(emission, omega),
            None => emission,
        }
    }

    /// The attenuation by the ground in a band.
    pub(crate) fn ground_in(&self, band: Band) -> Iv
        requires { IsPropagation self.now }
        ensures value { result ≡ ground_at self.now band }
        ensures effect { IsGroundEffect result }
        ensures bounds { IsGroundBy self.now.omega result }
    {
        self.grounds[band.place()]
    }

    /// A level in dB less what screens the path over the top in a band.
    #[inline(always)]
    pub(crate) fn past_screens(&self, level: Iv, band: Band) -> Iv
        requires { IsUnscreened level }
        ensures value { result ≡ sub_of level (screening_at self.now band) }
        ensures range { IsScreened result }
    {
        self.screening.off(level, band)
    }

    /// Gives the memory of quantities that are no longer read to those of other paths.
    #[inline(always)]
    pub(crate) fn give_back(&mut self, spare: &mut Vec<Box<[Iv; 8]>>)
        ensures { vec_len spare.old ≤ vec_len spare.new }
    {
        self.screening.give_back(spare);
    }
}
