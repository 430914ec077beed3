//! The ends of a line of sight.
use scene_geom::Pt;

/// Where a line of sight begins and ends: source and receiver, with their heights above ground in mm.
#[derive(Clone, Copy, Drop)]
pub struct Ends {
    pub s: Pt,
    pub hs: u32,
    pub r: Pt,
    pub hr: u32,
}
