//! Cuts of a line of sight.
use scene_geom::Frac;

/// Where a side of an obstacle crosses the plan line from source to receiver: the obstacle and the side
/// by their numbers from 0, the place `t` as a fraction of the line, the obstacle's height in mm, and
/// whether it rises above the line of sight there.
#[derive(Clone, Copy, Debug, PartialEq, Eq)]
pub struct Cut {
    pub obstacle: u32,
    pub side: u32,
    pub t: Frac,
    pub h: u32,
    pub above: bool,
}
