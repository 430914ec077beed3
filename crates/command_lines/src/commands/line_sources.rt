//! What a line says of a line source.
use scene_parts::{Kind, Name, Outline, PlainName, RawPoints, Word};
use std::marker::Model;

/// A line source as a line gives it, before it is checked.
#[derive(Drop)]
pub struct RawLineSource {
    pub name: PlainName,
    pub kind: Word,
    pub points: RawPoints,
    pub h: i64,
    pub lw: [Option<i64>; 8],
    pub dc: i64,
    pub piece: i64,
}

/// A line source (ISO 9613-2, clause 4), to be put as point sources: its points, its height in mm, its sound power level
/// per metre in the octave bands from 63 Hz to 8 kHz where it has power there, its directivity correction, both in
/// 0.01 dB, and the greatest length of a piece in mm.
#[derive(Clone, Debug, Drop)]
pub struct LineSpec {
    pub name: Name,
    pub kind: Kind,
    pub points: Outline,
    pub h: u32,
    pub lw: [Option<i32>; 8],
    pub dc: i32,
    pub piece: u32,
}

impl Model for LineSpec {
    ghost use Rattle.command_lines.specs.Views.{LineSource};
    ghost use Rattle.command_lines.specs.inner.Ranges.{IsLineSource};

    ghost Value = { LineSource };

    ghost view = { λ s. record { name = s.name; kind = s.kind; points = s.points; h = s.h; lw = s.lw; dc = s.dc; piece = s.piece } };

    ghost invariant = { λ s. IsLineSource (record { name = s.name; kind = s.kind; points = s.points; h = s.h; lw = s.lw; dc = s.dc; piece = s.piece }) };
}
