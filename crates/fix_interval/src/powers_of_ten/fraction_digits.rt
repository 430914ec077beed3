//! The binary digits of a fraction of 2^-32nds, as products of factors take them.

ghost use Rattle.std.specs.Prelude.{◌≡◌, ◌<◌, ◌+◌, ◌-◌, ◌*◌, ◌/◌, ◌%◌, ◌^◌};
ghost use Rattle.fix_interval.specs.Roots.{digit_at};

/// A factor's distance from 1 where the digit at this place of a fraction is 1, and 0 where it is 0. No branch depends
/// on the digit, which is as good as random.
#[inline(always)]
pub fn taken(distance: u64, fraction: u32, place: usize) -> u64
    requires { place < 32 }
    ensures { result ≡ distance * digit_at fraction place }
{
    distance & 0u64.wrapping_sub(u64::from((fraction >> (31 - place)) % 2))
}

/// The place in a table of six digits of a fraction: those from the place 8 on are the first block.
#[inline(always)]
pub fn six_digits(fraction: u32, block: u32) -> usize
    requires { block < 4 }
    ensures value { result ≡ 64 * block + fraction / 2 ^ (18 - 6 * block) % 64 }
    ensures bound { result < 256 }
{
    (64 * block + (fraction >> (18 - 6 * block)) % 64) as usize
}
