//! Directions of lines of sight.

ghost use Rattle.std.specs.Prelude.{pos, ◌<ℤ◌};

/// The direction `(x / w, y / w)` in which a line of sight leads, in mm, with `w` above 0.
#[derive(Clone, Copy, Debug, PartialEq, Eq)]
pub struct Dir {
    pub x: i128,
    pub y: i128,
    pub w: i128,
    pub ghost positive: { pos 0 <ℤ w },
}
