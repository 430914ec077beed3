//! What holds of the whole scene, and grids of receivers.
ghost use Rattle.std.specs.Prelude.{◌≡◌};
ghost use Rattle.scene_parts.specs.Parts.{default_globals, globals_with, setting_of};

use crate::kinds::{Air, Ground};
use crate::limits::MAX_REACH;
use crate::texts::Name;
use scene_geom::Pt;
use std::marker::Model;

/// What holds of the whole scene: how far a source reaches in mm, the ground factor outside zones in
/// hundredths, the air (ISO 9613-2, Table 2), the factor C0 of clause 8 in 0.01 dB, and the method for ground (7.3).
#[derive(Clone, Copy, Debug)]
pub struct Globals {
    pub reach: u32,
    pub g: u8,
    pub air: Air,
    pub c0: u16,
    pub ground: Ground,
}

impl Model for Globals {
    ghost use Rattle.scene_parts.specs.Parts.{Globals as GlobalsView, AreGlobals, globals_seen};

    ghost Value = { GlobalsView };

    ghost view = { globals_seen };

    ghost invariant = { λ s. AreGlobals (globals_seen s) };

    ghost inverse = { λ s. record { reach = s.reach; g = s.g; air = s.air; c0 = s.c0; ground = s.method } };
}

impl Globals {
    /// The globals of a scene in which nothing is set.
    pub fn initial() -> Globals
        ensures { result ≡ default_globals }
    {
        Globals {
            reach: MAX_REACH,
            g: 0,
            air: Air::Celsius10Humidity70,
            c0: 0,
            ground: Ground::General,
        }
    }

    /// The globals with the values that a setting gives.
    pub fn with(&self, setting: &SetSpec) -> Globals
        ensures { result ≡ globals_with setting.now self.now }
    {
        Globals {
            reach: setting.reach.unwrap_or(self.reach),
            g: setting.g.unwrap_or(self.g),
            air: setting.air.unwrap_or(self.air),
            c0: setting.c0.unwrap_or(self.c0),
            ground: setting.ground.unwrap_or(self.ground),
        }
    }
}

/// Values for some of the globals; the others stay as they are.
#[derive(Clone, Debug, Drop)]
pub struct SetSpec {
    pub reach: Option<u32>,
    pub g: Option<u8>,
    pub air: Option<Air>,
    pub c0: Option<u16>,
    pub ground: Option<Ground>,
}

impl Model for SetSpec {
    ghost use Rattle.scene_parts.specs.Parts.{Setting, IsSetting, setting_seen};

    ghost Value = { Setting };

    ghost view = { setting_seen };

    ghost invariant = { λ s. IsSetting (setting_seen s) };
}

impl SetSpec {
    /// The setting of all globals.
    pub fn of(globals: &Globals) -> SetSpec
        ensures { result ≡ setting_of globals.now }
    {
        SetSpec {
            reach: Some(globals.reach),
            g: Some(globals.g),
            air: Some(globals.air),
            c0: Some(globals.c0),
            ground: Some(globals.ground),
        }
    }
}

/// A grid of receivers: the place of the first, the distance to the next in mm, and their height in mm.
#[derive(Clone, Debug, Drop)]
pub struct GridSpec {
    pub name: Name,
    pub at: Pt,
    pub step: u32,
    pub columns: u32,
    pub rows: u32,
    pub h: u32,
}

impl Model for GridSpec {
    ghost use Rattle.scene_parts.specs.Parts.{Grid, IsGrid, grid_seen};

    ghost Value = { Grid };

    ghost view = { grid_seen };

    ghost invariant = { λ s. IsGrid (grid_seen s) };
}
