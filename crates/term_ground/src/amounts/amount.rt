//! A quantity that isn't negative, in 64 bits.

ghost use Rattle.std.specs.Prelude.{◌≤◌};

/// A quantity from 0 on, by its ends in units of 2^-32.
#[derive(Clone, Copy, Drop)]
pub(crate) struct Amount {
    pub lo: u64,
    pub hi: u64,
    pub ghost ordered: { lo ≤ hi },
}
