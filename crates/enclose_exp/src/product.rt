//! One step of a product of factors below 1, which are in units of 2^-60. A factor is given by how far it lies from 1,
//! in units of 2^-64, so that a step is the upper half of one 64-bit product.

ghost use Rattle.std.specs.Prelude.{◌≡◌, ◌-◌, ◌*◌, ◌/◌, ◌^◌};
ghost use Rattle.std.specs.Int.{div_ceil};

/// All ones.
const ONES: u128 = u64::MAX as u128;

/// A product and a factor below 1, multiplied and rounded down.
#[inline(always)]
pub(crate) fn shrunk_down(product: u64, loss: u64) -> u64
    ensures { result ≡ product - div_ceil (product * loss) (2 ^ 64) }
{
    product - ((u128::from(product) * u128::from(loss) + ONES) >> 64) as u64
}

/// A product and a factor below 1, multiplied and rounded up.
#[inline(always)]
pub(crate) fn shrunk_up(product: u64, loss: u64) -> u64
    ensures { result ≡ product - product * loss / 2 ^ 64 }
{
    product - ((u128::from(product) * u128::from(loss)) >> 64) as u64
}

/// A factor in units of 2^-32, rounded up.
pub(crate) fn units_up(factor: u64) -> u64
    ensures { result ≡ div_ceil factor (2 ^ 28) }
{
    (factor >> 28) + u64::from(factor % (1 << 28) != 0)
}
