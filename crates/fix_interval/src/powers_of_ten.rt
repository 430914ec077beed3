//! Powers of ten.

pub(crate) mod fraction_digits;
pub(crate) mod fraction_powers;
pub(crate) mod growths;
pub(crate) mod power_estimates;
pub(crate) mod starts;

ghost use Rattle.std.specs.Prelude.{◌≡◌, ◌<◌, ◌^◌};

/// Those below 2^96.
const POWERS: [u128; 29] = [
    1,
    10,
    100,
    1_000,
    10_000,
    100_000,
    1_000_000,
    10_000_000,
    100_000_000,
    1_000_000_000,
    10_000_000_000,
    100_000_000_000,
    1_000_000_000_000,
    10_000_000_000_000,
    100_000_000_000_000,
    1_000_000_000_000_000,
    10_000_000_000_000_000,
    100_000_000_000_000_000,
    1_000_000_000_000_000_000,
    10_000_000_000_000_000_000,
    100_000_000_000_000_000_000,
    1_000_000_000_000_000_000_000,
    10_000_000_000_000_000_000_000,
    100_000_000_000_000_000_000_000,
    1_000_000_000_000_000_000_000_000,
    10_000_000_000_000_000_000_000_000,
    100_000_000_000_000_000_000_000_000,
    1_000_000_000_000_000_000_000_000_000,
    10_000_000_000_000_000_000_000_000_000,
];

/// A whole power of ten below 2^96.
pub fn power_of_ten(exponent: u32) -> u128
    requires { exponent < 29 }
    ensures value { result ≡ 10 ^ exponent }
    ensures positive { 0 < result }
{
    POWERS[exponent as usize]
}
