//! Outlines: the corners of barriers, buildings, zones and foliage.
ghost use Rattle.std.specs.Prelude.{◌≡◌};

pub(crate) mod shapes;

use scene_geom::Pt;
use std::marker::Model;

/// The corners of a barrier, a building, a zone or a foliage, in order. Contracts see it as the list of them.
#[derive(Clone, Debug, Drop)]
pub struct Outline {
    corners: Vec<Pt>,
}

impl Model for Outline {
    ghost use Rattle.std.specs.Prelude.{List};
    ghost use Rattle.scene_geom.specs.declared.plan.Pt.{Pt};

    ghost Value = { List Pt };

    ghost view = { λ outline. outline.corners.items };
}

impl Outline {
    /// The outline of these corners.
    pub fn from_vec(items: Vec<Pt>) -> Self
        ensures { result ≡ items.items }
    {
        Outline { corners: items }
    }

    /// The corners.
    pub fn items(&self) -> &[Pt]
        ensures { result.now ≡ self.now }
    {
        self.corners.as_slice()
    }
}

/// A point as a line gives it, in mm, of any size.
#[derive(Clone, Copy, Debug, PartialEq, Eq)]
pub struct RawPt {
    pub x: i64,
    pub y: i64,
}

/// Points as a line gives them. Contracts see it as the list of them.
#[derive(Clone, Debug, Drop)]
pub struct RawPoints {
    points: Vec<RawPt>,
}

impl Model for RawPoints {
    ghost use Rattle.std.specs.Prelude.{List};
    ghost use Rattle.scene_parts.specs.declared.outlines.RawPt.{RawPt};

    ghost Value = { List RawPt };

    ghost view = { λ raw. raw.points.items };
}

impl RawPoints {
    /// The list of these points.
    pub fn from_vec(items: Vec<RawPt>) -> Self
        ensures { result ≡ items.items }
    {
        RawPoints { points: items }
    }

    /// The points.
    pub fn items(&self) -> &[RawPt]
        ensures { result.now ≡ self.now }
    {
        self.points.as_slice()
    }
}
