//! What the bands share of a path by way of a wall.
ghost use Rattle.std.specs.Prelude.{◌≡◌, ◌≤◌, vec_len};
ghost use Rattle.fix_interval.specs.Values.{add_of};
ghost use Rattle.path_calc.specs.inner.Prepared.{IsSent, IsSentOn};
ghost use Rattle.path_calc.specs.Segments.{FitsSegment};
ghost use Rattle.path_calc.specs.inner.Propagations.{IsEcho, IsReflectedSound, counts_at};

pub(crate) mod reflections;

use crate::bundles::segments::Seg;
use crate::direct::propagation::Propagation;
use fix_interval::{Iv, Truth, add};
use scene_geom::Band;
use std::marker::Model;

/// A path by way of a wall: its legs, which are read whether anything is heard or not, and what is heard.
#[derive(Drop)]
pub(crate) struct Reflected {
    wall: Seg,
    echo: Echo,
}

/// What is heard by way of a wall that mirrors the source to the receiver.
#[derive(Drop)]
pub(crate) enum Echo {
    /// Nothing: in each band the wall is too small, or the source has no power. Nothing along the legs is calculated.
    Silent,
    /// A sound in some bands, or one that may be there. What stands in the other bands of its path is never read.
    Audible(Sound),
}

/// What the bands share of a sound by way of a wall: the quantities of its path, the level of the reflection in dB, 10 lg rho,
/// and whether the wall is large enough in each band.
#[derive(Drop)]
pub(crate) struct Sound {
    pub(crate) path: Propagation,
    pub(crate) level: Iv,
    pub(crate) counts: [Truth; 8],
}

impl Model for Reflected {
    ghost use Rattle.path_calc.specs.inner.Propagations.{Reflected as ReflectedSeen, IsReflected};

    ghost Value = { ReflectedSeen };

    ghost view = { λ r. record { wall = r.wall; echo = r.echo } };

    ghost invariant = { λ r. IsReflected (record { wall = r.wall; echo = r.echo }) };
}

impl Reflected {
    /// A path with these legs, by way of which this is heard.
    pub(crate) fn of(wall: Seg, echo: Echo) -> Reflected
        requires wall { FitsSegment wall }
        requires echo { IsEcho echo }
        ensures { result ≡ record { wall = wall; echo = echo } }
    {
        Reflected { wall, echo }
    }

    /// The legs of the path.
    pub(crate) fn wall(&self) -> Seg
        ensures value { result ≡ self.now.wall }
        ensures fits { FitsSegment result }
    {
        self.wall
    }

    /// What is heard by way of the wall.
    pub(crate) fn echo(&self) -> &Echo
        ensures value { result.now ≡ self.now.echo }
        ensures range { IsEcho result.now }
    {
        &self.echo
    }

    /// Gives the memory of a path that is no longer read to others.
    pub(crate) fn give_back(self, spare: &mut Vec<Box<[Iv; 8]>>)
        ensures { vec_len spare.old ≤ vec_len spare.new }
    {
        match self.echo {
            Echo::Silent => {}
            Echo::Audible(mut sound) => sound.path.give_back(spare),
        }
    }
}

impl Sound {
    /// What the wall sends on of what is sent along the path, in dB.
    pub(crate) fn sends(&self, power: Iv) -> Iv
        requires sound { IsReflectedSound self.now }
        requires power { IsSent self.now.path.omega power }
        ensures value { result ≡ add_of power self.now.level }
        ensures bounds { IsSentOn self.now.path.omega result }
    {
        add(power, self.level)
    }

    /// Whether the wall is large enough in a band.
    pub(crate) fn counts_in(&self, band: Band) -> Truth
        requires { IsReflectedSound self.now }
        ensures { result ≡ counts_at self.now band }
    {
        self.counts[band.place()]
    }
}
