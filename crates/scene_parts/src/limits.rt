//! The limits of parts, each named once.

/// The corners of a barrier, a building, a zone or a foliage.
pub const MAX_CORNERS: usize = 1024;

/// The columns of a grid, and its rows.
pub const MAX_COLUMNS: u32 = 4096;

/// The distance from one receiver of a grid to the next, in mm.
pub const MAX_STEP: u32 = 1_000_000;

/// The outermost coordinate of the plan, in mm.
pub const MAX_COORDINATE: i64 = 4_000_000;

/// How far a source counts at most, in mm.
pub const MAX_REACH: u32 = 4_000_000;

/// The height of a part above ground, in mm.
pub const MAX_HEIGHT: u32 = 100_000;

/// A ground factor, in hundredths.
pub const MAX_GROUND_FACTOR: u32 = 100;

/// The factor C0 of clause 8, in 0.01 dB.
pub const MAX_C0: u32 = 1000;

/// The length of a side of a barrier or a building, in mm.
pub const MAX_SIDE_LENGTH: u64 = 262_143;

/// What a barrier weighs at least, in kg/m² (ISO 9613-2, 7.4).
pub const MIN_DENSITY: u32 = 10;

/// What a barrier weighs at most, in kg/m².
pub const MAX_DENSITY: u32 = 100_000;

/// What a surface reflects at most, per mille.
pub const FULL_REFLECTION: u32 = 1000;

/// What a surface that isn't taken as a mirror reflects at most, per mille (ISO 9613-2, 7.5).
pub const WEAK_REFLECTION: u16 = 200;
