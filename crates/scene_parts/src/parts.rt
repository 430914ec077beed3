//! The parts of a scene, of which no value is out of its range, and their classes.
ghost use Rattle.std.specs.Prelude.{◌≡◌};
ghost use Rattle.scene_parts.specs.Parts.{class_word, point_source, IsSource};

use crate::kinds::{Kind, Shape};
use crate::outlines::Outline;
use crate::texts::Name;
use scene_geom::Pt;
use std::marker::Model;

/// A point source (ISO 9613-2, clause 4): its height in mm, its sound power level in the octave bands
/// from 63 Hz to 8 kHz where it has power there, and its directivity correction, both in 0.01 dB.
#[derive(Clone, Debug, Drop)]
pub struct PointSource {
    pub name: Name,
    pub kind: Kind,
    pub at: Pt,
    pub h: u32,
    pub lw: [Option<i32>; 8],
    pub dc: i32,
}

impl Model for PointSource {
    ghost use Rattle.scene_parts.specs.Parts.{Source, IsSource, source_seen};

    ghost Value = { Source };

    ghost view = { source_seen };

    ghost invariant = { λ s. IsSource (source_seen s) };
}

impl PointSource {
    /// The point source of these values, which lie in its ranges.
    pub fn of(name: Name, kind: Kind, at: Pt, h: u32, lw: [Option<i32>; 8], dc: i32) -> Self
        requires { IsSource (point_source name kind at h lw dc) }
        ensures { result ≡ point_source name kind at h lw dc }
    {
        PointSource {
            name,
            kind,
            at,
            h,
            lw,
            dc,
        }
    }
}

/// A barrier or a building (ISO 9613-2, 7.4 and 7.5): its height in mm, and what its sides reflect per mille.
#[derive(Clone, Debug, Drop)]
pub struct Obstacle {
    pub name: Name,
    pub shape: Shape,
    pub points: Outline,
    pub h: u32,
    pub rho: u16,
}

impl Model for Obstacle {
    ghost use Rattle.scene_parts.specs.Parts.{Obstacle as ObstacleView, IsObstacle, obstacle_seen};

    ghost Value = { ObstacleView };

    ghost view = { obstacle_seen };

    ghost invariant = { λ o. IsObstacle (obstacle_seen o) };
}

/// A zone of ground (ISO 9613-2, 7.3.1): its ground factor in hundredths.
#[derive(Clone, Debug, Drop)]
pub struct Zone {
    pub name: Name,
    pub points: Outline,
    pub g: u8,
}

impl Model for Zone {
    ghost use Rattle.scene_parts.specs.Parts.{Zone as ZoneView, IsZone, zone_seen};

    ghost Value = { ZoneView };

    ghost view = { zone_seen };

    ghost invariant = { λ z. IsZone (zone_seen z) };
}

/// Dense foliage (ISO 9613-2, Table A.1): trees and shrubs so dense that one can't see through them, with their height
/// in mm.
#[derive(Clone, Debug, Drop)]
pub struct Foliage {
    pub name: Name,
    pub points: Outline,
    pub h: u32,
}

impl Model for Foliage {
    ghost use Rattle.scene_parts.specs.Parts.{Foliage as FoliageView, IsFoliage, foliage_seen};

    ghost Value = { FoliageView };

    ghost view = { foliage_seen };

    ghost invariant = { λ f. IsFoliage (foliage_seen f) };
}

/// A receiver: a point at a height above ground, in mm.
#[derive(Clone, Debug, Drop)]
pub struct Receiver {
    pub name: Name,
    pub at: Pt,
    pub h: u32,
}

impl Model for Receiver {
    ghost use Rattle.scene_parts.specs.Parts.{Receiver as ReceiverView, IsReceiver, receiver_seen};

    ghost Value = { ReceiverView };

    ghost view = { receiver_seen };

    ghost invariant = { λ r. IsReceiver (receiver_seen r) };
}

/// A part of a scene.
#[derive(Clone, Debug, Drop)]
pub enum Part {
    Source(PointSource),
    Obstacle(Obstacle),
    Zone(Zone),
    Foliage(Foliage),
    Receiver(Receiver),
}

/// A class of parts. `Obstacle` counts barriers and buildings together, `Side` their sides.
#[derive(Clone, Copy, Debug, PartialEq, Eq)]
pub enum Class {
    Source,
    Barrier,
    Building,
    Zone,
    Foliage,
    Receiver,
    Obstacle,
    Side,
}

impl Class {
    /// The word of a class, as rows have it.
    #[tactic(auto, unfolding(crate::specs::Parts::class_word))]
    pub fn word(self) -> &'static str
        ensures { result.now ≡ class_word self }
    {
        match self {
            Class::Source => "source",
            Class::Barrier => "barrier",
            Class::Building => "building",
            Class::Zone => "zone",
            Class::Foliage => "foliage",
            Class::Receiver => "receiver",
            Class::Obstacle => "obstacle",
            Class::Side => "side",
        }
    }
}
