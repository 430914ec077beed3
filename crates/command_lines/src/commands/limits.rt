//! The limits of what a line asks for, each named once.

/// The level of a contour, in 0.01 dB.
pub const MAX_LEVEL: i64 = 20_000;

/// The least sound power level of a metre of a line source, in 0.01 dB.
pub const MIN_LINE_POWER: i32 = 1100;

/// The greatest sound power level of a metre of a line source, in 0.01 dB.
pub const MAX_LINE_POWER: i32 = 13_000;

/// The length of a piece of a line source, in mm, at the least.
pub const MIN_PIECE_LENGTH: u32 = 1000;

/// The length of a piece of a line source, in mm, at the most.
pub const MAX_PIECE_LENGTH: u32 = 1_000_000;

/// The version that an undo names, at the most.
pub const MAX_VERSION: i64 = 9_223_372_036_854_775_807;
