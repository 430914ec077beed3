//! What dense foliage takes off the sounds of a path (ISO 9613-2, Table A.1).
ghost use Rattle.std.specs.Prelude.{◌≡◌};
ghost use Rattle.fix_interval.specs.Values.{sub_of};
ghost use Rattle.path_shape.specs.Shape.{IsPath};
ghost use Rattle.term_barrier.specs.Limits.{IsDistance};
ghost use Rattle.path_calc.specs.inner.Losses.{loss_in, losses_along};
ghost use Rattle.path_calc.specs.inner.Ranges.{IsScreened, IsAtReceiver};

use crate::energies::small_sums::minus;
use fix_interval::Iv;
use path_shape::Path;
use scene_geom::Band;
use scene_parts::Foliage;
use std::marker::Model;
use term_foliage::{a_fol_over, distance_through};

/// A_fol of a path in each band in dB, by the distance in metres that its sound goes through foliage: a path keeps no
/// values of eight bands for what most paths don't meet. Contracts see it as the list of the attenuations.
#[derive(Drop)]
pub(crate) struct Losses {
    through: Option<Iv>,
}

impl Model for Losses {
    ghost use Rattle.std.specs.Prelude.{List};
    ghost use Rattle.fix_interval.specs.Interval.{Interval};
    ghost use Rattle.term_foliage.specs.Foliage.{attenuations_over};
    ghost use Rattle.path_calc.specs.inner.Losses.{AreLosses};

    ghost Value = { List Interval };

    ghost view = { λ losses. attenuations_over losses.through };

    ghost invariant = { λ losses. AreLosses (attenuations_over losses.through) };
}

impl Losses {
    /// What foliage takes off the sounds of a path over a distance in metres.
    pub(crate) fn along(foliage: &[Foliage], path: &Path, distance: Iv) -> Losses
        requires path { IsPath path.now }
        requires distance { IsDistance distance }
        ensures { result ≡ losses_along foliage.now path.now distance }
    {
        Losses {
            through: distance_through(foliage, path, distance),
        }
    }

    /// A level in dB less what foliage takes off it in a band.
    #[inline(always)]
    pub(crate) fn off(&self, level: Iv, band: Band) -> Iv
        requires { IsScreened level }
        ensures value { result ≡ sub_of level (loss_in self.now band) }
        ensures range { IsAtReceiver result }
    {
        match self.through {
            Some(through) => minus(level, a_fol_over(through, band)),
            None => level,
        }
    }
}
