//! Square roots of whole numbers.

ghost use Rattle.std.specs.Prelude.{◌≡◌, ◌<◌, ◌≤◌, ◌+◌, ◌*◌, ◌^◌, IsTrue, ◌↔◌};
ghost use Rattle.fix_interval.specs.Round.{floor_root, ceil_root};

use crate::quotients::estimates::{Line, upper};

/// The least 64 bits of a number.
const WORD: u128 = u64::MAX as u128;

/// Three in units of 2^-60, less what rounding down may add to it.
const THREE: u64 = (3 << 60) - 4;

/// Lines along the inverse roots of the numbers up to 1, one for each 16th, in units of 2^-62. Those below 1/4 are
/// not used.
const LINES: [Line; 16] = [
    Line { start: 0, fall: 0 },
    Line { start: 0, fall: 0 },
    Line { start: 0, fall: 0 },
    Line { start: 0, fall: 0 },
    Line {
        start: 9_203_015_810_429_001_728,
        fall: 973_737_294_383_586_304,
    },
    Line {
        start: 8_237_354_507_365_014_528,
        fall: 718_783_009_754_867_712,
    },
    Line {
        start: 7_522_781_170_757_396_480,
        fall: 558_637_830_160_606_208,
    },
    Line {
        start: 6_966_578_124_424_552_448,
        fall: 450_304_989_889_325_056,
    },
    Line {
        start: 6_517_791_044_301_607_936,
        fall: 372_994_221_429_873_664,
    },
    Line {
        start: 6_145_798_390_087_535_616,
        fall: 315_542_022_523_000_832,
    },
    Line {
        start: 5_830_947_300_301_536_256,
        fall: 271_470_059_967_456_256,
    },
    Line {
        start: 5_559_971_271_167_109_120,
        fall: 236_786_280_431_887_360,
    },
    Line {
        start: 5_323_548_805_977_287_680,
        fall: 208_910_049_612_536_832,
    },
    Line {
        start: 5_114_913_379_295_657_984,
        fall: 186_106_548_321_366_016,
    },
    Line {
        start: 4_929_018_526_876_149_760,
        fall: 167_170_891_098_439_680,
    },
    Line {
        start: 4_762_013_799_591_641_088,
        fall: 151_242_820_854_441_984,
    },
];

/// The root of a number, rounded down. Where neither the estimate nor the next number is that, it is searched
/// for, so that nothing rests on the estimate.
pub(crate) fn root_down(n: u128) -> u64
    ensures { result ≡ floor_root n }
{
    let near = estimate(n);
    let next = near.wrapping_add(1);
    if is_root(n, near) {
        near
    } else if is_root(n, next) {
        next
    } else {
        n.isqrt() as u64
    }
}

/// The root of a number, rounded up. It is found soonest where it is at most two above `near`, which may be any number, and
/// soon where it isn't far above.
pub(crate) fn root_up(n: u128, near: u64) -> u128
    ensures value { result ≡ ceil_root n }
    ensures limited { result ≤ 2 ^ 64 }
{
    let start = u128::from(near);
    match n.checked_sub(start * start) {
        Some(0) => start,
        Some(rest) if rest <= 2 * start + 1 => start + 1,
        Some(rest) if rest <= 4 * start + 4 => start + 2,
        _ => root_beyond(n, near),
    }
}

/// The root of a number, rounded up. It is found soonest where it isn't far above `near`, which may be any number. Callers
/// seldom ask for it, so that it isn't put into them.
#[inline(never)]
fn root_beyond(n: u128, near: u64) -> u128
    ensures value { result ≡ ceil_root n }
    ensures limited { result ≤ 2 ^ 64 }
{
    let start = u128::from(near);
    match n.checked_sub(start * start) {
        Some(rest) if rest <= WORD => root_above(n, steps_on(near, rest as u64)),
        _ => rounded_up(n),
    }
}

/// The root of a number, rounded up. It is found soonest where this is the number below it.
fn root_above(n: u128, below: u64) -> u128
    ensures value { result ≡ ceil_root n }
    ensures limited { result ≤ 2 ^ 64 }
{
    if is_next(n, below) {
        u128::from(below) + 1
    } else {
        rounded_up(n)
    }
}

/// Whether the root of a number, rounded up, is the next number after this.
fn is_next(n: u128, below: u64) -> bool
    ensures { IsTrue result ↔ ((below * below < n) × (n ≤ (below + 1) * (below + 1))) }
{
    let below = u128::from(below);
    let square = below * below;
    square < n && n - square <= 2 * below + 1
}

/// A number that is nearly always one below the root rounded up: so many steps behind one that is near, as what the square of
/// that leaves of the number takes, of twice the root each.
#[inline(always)]
fn steps_on(near: u64, rest: u64) -> u64 {
    near.wrapping_add((rest >> 1) / near.max(1))
}

/// The root of a number, rounded up from the one rounded down.
fn rounded_up(n: u128) -> u128
    ensures value { result ≡ ceil_root n }
    ensures limited { result ≤ 2 ^ 64 }
{
    let root = u128::from(root_down(n));
    if root * root == n { root } else { root + 1 }
}

/// Whether this is the root of a number, rounded down.
fn is_root(n: u128, root: u64) -> bool
    ensures { IsTrue result ↔ ((root * root ≤ n) × (n < (root + 1) * (root + 1))) }
{
    let root = u128::from(root);
    let square = root * root;
    square <= n && n - square <= 2 * root
}

/// A number that is nearly always the root rounded down, or one less, without a division: the inverse of the
/// root along a line, made more exact twice, and the root by what its square leaves of the number.
#[inline(always)]
fn estimate(n: u128) -> u64 {
    let shift = (n | 1).leading_zeros() & 126;
    let scaled = n << shift;
    let part = (scaled >> 64) as u64;
    let line = LINES[(part >> 60) as usize];
    let inverse = line.at(part << 4);
    let inverse = more_exact(part, more_exact(part, inverse));
    let root = upper(part, inverse) << 2;
    let rest = scaled.wrapping_sub(u128::from(root) * u128::from(root));
    let missing = upper(((rest >> 36) & WORD) as u64, inverse) >> 27;
    root.wrapping_add(missing) >> (shift / 2)
}

/// An inverse root in units of 2^-62 with twice as many right digits, by Newton's method.
#[inline(always)]
fn more_exact(part: u64, inverse: u64) -> u64 {
    let one = upper(part, upper(inverse, inverse));
    upper(inverse, THREE.wrapping_sub(one)) << 3
}
