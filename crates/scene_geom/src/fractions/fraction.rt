//! Fractions of a way.

ghost use Rattle.std.specs.Prelude.{pos, ◌<ℤ◌};

/// A fraction `n / d` with a divisor above 0, kept as it was found and not reduced: two equal
/// fractions may differ in `n` and `d`.
#[derive(Clone, Copy, Debug, PartialEq, Eq)]
pub struct Frac {
    pub n: i128,
    pub d: i128,
    pub ghost positive: { pos 0 <ℤ d },
}
