//! What a line asks of contours.
use scene_parts::{Name, PlainName};
use std::marker::Model;

/// Contours of a level at the receivers of a grid, as a line gives them, before they are checked.
#[derive(Drop)]
pub struct RawContour {
    pub name: PlainName,
    pub level: i64,
    pub columns: i64,
    pub rows: i64,
}

/// Contours of a level at the receivers of a grid: the grid's name, the level in 0.01 dB from 0 to 200 dB, and how many
/// of the grid's columns and rows are looked at, from 1 to 4,096 each.
#[derive(Clone, Debug, Drop)]
pub struct ContourSpec {
    pub name: Name,
    pub level: i32,
    pub columns: u32,
    pub rows: u32,
}

impl Model for ContourSpec {
    ghost use Rattle.command_lines.specs.Views.{Contour};
    ghost use Rattle.command_lines.specs.inner.Ranges.{IsContour};

    ghost Value = { Contour };

    ghost view = { λ s. record { name = s.name; level = s.level; columns = s.columns; rows = s.rows } };

    ghost invariant = { λ s. IsContour (record { name = s.name; level = s.level; columns = s.columns; rows = s.rows }) };
}
