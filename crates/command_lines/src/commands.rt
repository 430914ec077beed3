//! What a line asks for.

pub(crate) mod checking;
pub(crate) mod contours;
pub(crate) mod limits;
pub(crate) mod line_sources;

use crate::commands::contours::ContourSpec;
use crate::commands::line_sources::LineSpec;
use scene_book::Edit;
use scene_parts::Name;

/// What a line asks for.
#[derive(Debug, Drop)]
pub enum Command {
    /// An edit of the scene.
    Edit(Edit),
    /// To put a line source as point sources.
    Line(LineSpec),
    /// To take the point sources of the line source of this name out.
    Unline(Name),
    /// To make the scene what it was at this version.
    Undo(u64),
    /// To calculate all levels and to show them.
    Settle,
    /// To show what is known.
    Look,
    /// To calculate all levels and to show the contours of a grid.
    Contour(ContourSpec),
}
