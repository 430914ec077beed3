//! What estimates of quotients and roots are made of. Nothing rests on how near an estimate is: its user tests it.

ghost use Rattle.std.specs.Prelude.{◌≡◌, ◌*◌, ◌/◌, ◌^◌};

/// A straight line that lies along a function between two places.
#[derive(Clone, Copy, Drop)]
pub(crate) struct Line {
    /// Its value at the lesser place.
    pub(crate) start: u64,
    /// How much it falls to the greater place.
    pub(crate) fall: u64,
}

impl Line {
    /// The value at a place between, which is given in units of 2^-64 of the way.
    #[inline(always)]
    pub(crate) fn at(self, place: u64) -> u64 {
        self.start.wrapping_sub(upper(place, self.fall))
    }
}

/// The upper 64 bits of a product.
#[inline(always)]
pub(crate) fn upper(a: u64, b: u64) -> u64
    ensures { result ≡ a * b / 2 ^ 64 }
{
    ((u128::from(a) * u128::from(b)) >> 64) as u64
}
