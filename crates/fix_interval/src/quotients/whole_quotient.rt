//! Quotients of whole numbers, for numerators of up to 128 bits.

ghost use Rattle.std.specs.Prelude.{◌≡◌, ◌<◌, ◌*◌, ◌/◌, ◌^◌};

use crate::quotients::estimates::{Line, upper};

/// Two in units of 2^-62, less what rounding down may add to it.
const TWO: u64 = (2 << 62) - 4;

/// Lines along the inverses of the numbers from 1/2 to 1, one for each 32nd, in units of 2^-62.
const LINES: [Line; 16] = [
    Line {
        start: 9_219_260_855_747_621_888,
        fall: 542_551_296_285_575_168,
    },
    Line {
        start: 8_677_375_267_132_649_472,
        fall: 482_267_818_920_511_488,
    },
    Line {
        start: 8_195_636_829_668_659_200,
        fall: 431_502_785_349_931_008,
    },
    Line {
        start: 7_764_560_287_839_911_936,
        fall: 388_352_506_814_937_088,
    },
    Line {
        start: 7_376_554_831_770_902_528,
        fall: 351_366_553_784_944_640,
    },
    Line {
        start: 7_025_473_707_441_567_744,
        fall: 319_424_139_804_493_824,
    },
    Line {
        start: 6_706_286_468_436_147_200,
        fall: 291_648_127_647_582_208,
    },
    Line {
        start: 6_414_836_604_097_341_440,
        fall: 267_344_117_010_283_520,
    },
    Line {
        start: 6_147_659_679_997_786_112,
        fall: 245_956_587_649_460_224,
    },
    Line {
        start: 5_901_845_070_859_570_176,
        fall: 227_036_850_137_963_520,
    },
    Line {
        start: 5_674_929_564_682_782_720,
        fall: 210_219_305_683_300_352,
    },
    Line {
        start: 5_464_814_585_146_742_784,
        fall: 195_203_640_991_635_456,
    },
    Line {
        start: 5_269_701_134_372_927_488,
        fall: 181_741_320_923_246_592,
    },
    Line {
        start: 5_088_038_183_237_216_256,
        fall: 169_625_232_861_697_024,
    },
    Line {
        start: 4_918_481_374_578_931_712,
        fall: 158_681_669_451_265_024,
    },
    Line {
        start: 4_759_859_712_757_529_600,
        fall: 148_764_065_110_560_768,
    },
];

/// The quotient of two numbers rounded down. Where both fit 64 bits, as they mostly do, it is one short division, of
/// which a compiler that knows the divisor makes a product. It divides by 128 bits only where the divisor has more
/// than 64.
#[inline(always)]
pub(crate) fn quotient(n: u128, d: u128) -> u128
    requires { 0 < d }
    ensures { result ≡ n / d }
{
    match (u64::try_from(n), u64::try_from(d)) {
        (Ok(n), Ok(d)) => u128::from(n / d),
        (_, Ok(d)) => long_quotient(n, d),
        _ => n / d,
    }
}

/// The quotient of a number that mostly doesn't fit 64 bits.
#[inline(always)]
fn long_quotient(n: u128, d: u64) -> u128
    requires { 0 < d }
    ensures { result ≡ n / d }
{
    if n >> 96 == 0 && d >> 32 == 0 {
        quotient_by_parts(n, d)
    } else {
        near_quotient(n, d)
    }
}

/// The quotient by a divisor of at most 32 bits: first that of all but the least 32 bits, and then that of the
/// remainder and those.
#[inline(always)]
fn quotient_by_parts(n: u128, d: u64) -> u128
    requires number { n < 2 ^ 96 }
    requires positive { 0 < d }
    requires divisor { d < 2 ^ 32 }
    ensures { result ≡ n / d }
{
    let first = (n >> 32) as u64;
    let last = (n % (1 << 32)) as u64;
    u128::from(first / d) * (1 << 32) + u128::from((first % d * (1 << 32) + last) / d)
}

/// The quotient by its estimate. Where neither that nor the next number is the quotient, it is divided in full, so
/// that nothing rests on the estimate.
fn near_quotient(n: u128, d: u64) -> u128
    requires { 0 < d }
    ensures { result ≡ n / d }
{
    let near = u128::from(estimate(n, d));
    let divisor = u128::from(d);
    match n.checked_sub(near * divisor) {
        Some(rest) if rest < divisor => near,
        Some(rest) if rest < 2 * divisor => near + 1,
        _ => n / divisor,
    }
}

/// A number that is nearly always the quotient rounded down where that has up to 52 bits, without a division: the
/// inverse of the divisor along a line, made more exact three times, and its product with the number.
#[inline(always)]
fn estimate(n: u128, d: u64) -> u64
    requires { 0 < d }
{
    let shift = d.leading_zeros();
    let divisor = d << shift;
    let line = LINES[((divisor >> 59) % 16) as usize];
    let inverse = line.at(divisor << 5);
    let inverse = more_exact(divisor, more_exact(divisor, more_exact(divisor, inverse)));
    let above = n.leading_zeros();
    let number = (n.wrapping_shl(above) >> 64) as u64;
    upper(number, inverse).wrapping_shr(above.wrapping_sub(shift + 2))
}

/// An inverse in units of 2^-62 with twice as many right digits, by Newton's method.
#[inline(always)]
fn more_exact(divisor: u64, inverse: u64) -> u64 {
    upper(inverse, TWO.wrapping_sub(upper(divisor, inverse))) << 2
}
