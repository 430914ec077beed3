//! Screening round vertical edges.

ghost use Rattle.std.specs.Prelude.{◌≡◌, ◌<◌, ◌≤◌, pos, length};
ghost use Rattle.fix_interval.specs.Bounds.{AreBetween};
ghost use Rattle.fix_interval.specs.Tree.{Known, enc};
ghost use Rattle.path_shape.specs.Shape.{plan_length};
ghost use Rattle.scene_geom.specs.declared.band.Band.{Band};
ghost use Rattle.term_barrier.specs.Lateral.{between_corners, in_band, last_corner, side_attenuation, side_attenuations};
ghost use Rattle.term_barrier.specs.Lateral as form;
ghost use Rattle.term_barrier.specs.Limits.{most_corners, most_top, IsDistance};

use crate::pair::spacing::EdgeSpacing;
use crate::single::formulas::{
    at_one_edge, at_two_edges, double_attenuation, path_difference, single_attenuation, three_and,
};
use fix_interval::{Iv, add, exact, ratio};
use path_shape::Path;
use scene_geom::{Band, Pt};
use std::marker::Model;

/// The way round the vertical edges of a chain of corners, with what its bands share: z in metres, and what C_3 takes of the
/// distance from the first corner to the last, where there are several. It is seen as D_z in dB in each of the eight bands,
/// from the lowest.
#[derive(Drop)]
pub struct RoundSides {
    z: Iv,
    spacing: Option<EdgeSpacing>,
}

impl Model for RoundSides {
    ghost use Rattle.std.specs.Prelude.{List, map};
    ghost use Rattle.fix_interval.specs.Interval.{Interval};
    ghost use Rattle.scene_geom.specs.Bands.{all_bands};
    ghost use Rattle.term_barrier.specs.inner.Reaching.{round_value};

    ghost Value = { List Interval };

    ghost view = { λ round. map (round_value round.spacing round.z) all_bands };
}

impl RoundSides {
    /// What the bands share of the way from the source round the corners, in their order, to the receiver (ISO 9613-2,
    /// equations 13 to 17). Heights are in mm; source and receiver are `d` apart, in metres. Round at most 2^16 corners, and
    /// where `d` is from 0 m to 2^28 m, D_z is from 0 dB to 25 dB in each band.
    pub fn of(s: Pt, hs: u32, r: Pt, hr: u32, corners: &[Pt], d: Iv) -> RoundSides
        requires { 0 < length corners.now }
        ensures value { result ≡ side_attenuations s hs r hr corners.now d }
        ensures bounds { length corners.now ≤ most_corners → IsDistance d
            → (band : Band) → AreBetween (pos 0) most_top (in_band result band) }
    {
        let Some((first, others)) = corners.split_first() else {
            return RoundSides {
                z: exact(0),
                spacing: None,
            };
        };
        let (e, last) = way_round(*first, others);
        let length = add(add(distance(s, *first), e), distance(last, r));
        let z = path_difference(length, height_square(hs, hr), d);
        if others.is_empty() {
            return RoundSides { z, spacing: None };
        }
        RoundSides {
            z,
            spacing: Some(EdgeSpacing::of(e)),
        }
    }

    /// D_z in a band, in dB (ISO 9613-2, equation 14).
    pub fn d_z(&self, band: Band) -> Iv
        ensures { result ≡ in_band self.now band }
    {
        match &self.spacing {
            None => single_attenuation(three_and(at_one_edge(band, self.z))),
            Some(spacing) => double_attenuation(three_and(at_two_edges(band, spacing, self.z))),
        }
    }
}

/// D_z round vertical edges in dB (ISO 9613-2, equations 13 and 14), in a band: sound goes from the source round the
/// corners, in their order, to the receiver. Heights are in mm; source and receiver are `d` apart, in metres. Round at most
/// 2^16 corners, and where `d` is from 0 m to 2^28 m, it is from 0 dB to 25 dB.
pub fn d_z_side(s: Pt, hs: u32, r: Pt, hr: u32, corners: &[Pt], d: Iv, band: Band) -> Iv
    requires { 0 < length corners.now }
    ensures value { result ≡ enc (side_attenuation s hs r hr corners.now (Known d) band) }
    ensures bounds { length corners.now ≤ most_corners → IsDistance d
        → AreBetween (pos 0) most_top result }
{
    RoundSides::of(s, hs, r, hr, corners, d).d_z(band)
}

/// The length in plan from the first corner to the last, in metres, and the last corner.
fn way_round(first: Pt, others: &[Pt]) -> (Iv, Pt)
    ensures length { result.0 ≡ enc (between_corners first others.now) }
    ensures last { result.1 ≡ last_corner first others.now }
{
    let mut e = exact(0);
    let mut last = first;
    for corner in others {
        e = add(e, distance(last, *corner));
        last = *corner;
    }
    (e, last)
}

/// The distance of two points in plan, in metres.
fn distance(from: Pt, to: Pt) -> Iv
    ensures { result ≡ enc (plan_length from to) }
{
    Path::direct(from, 0, to, 0).dp
}

/// The square of the difference of two heights in mm, in square metres.
fn height_square(hs: u32, hr: u32) -> Iv
    ensures { result ≡ enc (form.height_square hs hr) }
{
    let rise = u128::from(hs.abs_diff(hr));
    ratio((rise * rise) as i128, 1_000_000)
}
