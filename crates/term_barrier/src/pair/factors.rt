//! How far z and K_met of two edges reach.

ghost use Rattle.std.specs.Prelude.{◌≤◌, ◌^◌};

/// The high end of z of two edges, where a negative one counts as 0, and both ends of K_met, in units of 2^-32.
#[derive(Clone, Copy, Drop)]
pub(crate) struct Factors {
    pub z: u64,
    pub k_low: u64,
    pub k_high: u64,
    ghost short: { z ≤ 2 ^ 52 },
    ghost low_end: { k_low ≤ 2 ^ 32 },
    ghost high_end: { k_high ≤ 2 ^ 32 },
}
