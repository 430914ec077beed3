//! The legs of a line, and the power of their pieces.
ghost use Rattle.std.specs.Prelude.{◌≡◌, ◌∷◌, [], pos, neg_ℤ, ◌≤ℤ◌, IsTrue};
ghost use Rattle.std.specs.List.{list_all};
ghost use Rattle.scene_parts.specs.Parts.{is_power};
ghost use Rattle.line_sources.specs.Legs.{is_leg as is_leg_of};
ghost use Rattle.line_sources.specs.Gains.{is_line_power};
ghost use Rattle.line_sources.specs.Pieces.{cut_of, powers_with, power_with};

use crate::counts::count;
use crate::gains::gain;
use command_lines::LineSpec;
use scene_geom::Side;
use scene_parts::squared;
use std::marker::Model;

/// A leg, into how many pieces it is cut, and their power in each band, in 0.01 dB.
#[derive(Drop)]
pub(crate) struct CutLeg {
    pub(crate) side: Side,
    pub(crate) count: u32,
    pub(crate) lw: [Option<i32>; 8],
}

impl Model for CutLeg {
    ghost use Rattle.line_sources.specs.Pieces.{CutLeg as CutLegView, IsCutLeg};

    ghost Value = { CutLegView };

    ghost view = { λ leg. record { side = leg.side; count = leg.count; lw = leg.lw } };

    ghost invariant = { λ leg. IsCutLeg (record { side = leg.side; count = leg.count; lw = leg.lw }) };
}

impl CutLeg {
    /// A leg of a line with its pieces.
    pub(crate) fn of(line: &LineSpec, side: Side) -> CutLeg
        requires { IsTrue (is_leg_of side) }
        ensures { result ≡ cut_of line.now side }
    {
        let square = squared(side);
        let count = count(square, line.piece);
        let lw = powers(line.lw, gain(square, count));
        CutLeg { side, count, lw }
    }
}

/// Whether a side leads from one point to another.
pub(crate) fn is_leg(side: Side) -> bool
    ensures { result ≡ is_leg_of side }
{
    !(side.from.x == side.to.x && side.from.y == side.to.y)
}

/// The levels of a line with a gain.
fn powers(lw: [Option<i32>; 8], gain: i32) -> [Option<i32>; 8]
    requires levels { IsTrue (list_all is_line_power lw) }
    requires low { neg_ℤ (pos 3001) ≤ℤ gain }
    requires high { gain ≤ℤ pos 3000 }
    ensures value { result ≡ powers_with gain lw }
    ensures range { IsTrue (list_all is_power result) }
{
    [
        power(lw[0], gain),
        power(lw[1], gain),
        power(lw[2], gain),
        power(lw[3], gain),
        power(lw[4], gain),
        power(lw[5], gain),
        power(lw[6], gain),
        power(lw[7], gain),
    ]
}

/// A level with a gain.
fn power(level: Option<i32>, gain: i32) -> Option<i32>
    requires level { IsTrue (is_line_power level) }
    requires low { neg_ℤ (pos 3001) ≤ℤ gain }
    requires high { gain ≤ℤ pos 3000 }
    ensures value { result ≡ power_with gain level }
    ensures range { IsTrue (is_power result) }
{
    match level {
        Some(level) => Some(level + gain),
        None => None,
    }
}
