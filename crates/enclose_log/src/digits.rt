//! The binary digits of a logarithm, one a turn.

ghost use Rattle.std.specs.Prelude.{◌≡◌, ◌<◌, ◌≤◌, ◌+◌, ◌*◌, ◌^◌, if◌then◌else◌};
ghost use Rattle.fix_interval.specs.Lg.{turn_low, turn_high, one_mantissa, digits_low, digits_high, rounded_up};
ghost use Rattle.enclose_log.specs.inner.Turn.{mantissa_over, reaches_ten};

use crate::guess::tested_digits;
use std::marker::Model;

/// The number 1 as a mantissa counts it.
const ONE: u64 = 1 << 58;

/// The least 64 bits of a number.
const WORD: u128 = u64::MAX as u128;

/// Where the digits of a low end stand between two turns: the mantissa, from 1 to 10 in units of 2^-58, whose
/// logarithm is still to be found, and the digits so far.
#[derive(Clone, Copy, Drop)]
struct Low {
    mantissa: u64,
    digits: u64,
}

impl Model for Low {
    ghost use Rattle.fix_interval.specs.Lg.{LgTurn};

    ghost Value = { LgTurn };

    ghost view = { λ t. record { mantissa = t.mantissa; digits = t.digits } };

    ghost inverse = { λ t. record { mantissa = t.mantissa; digits = t.digits } };
}

impl Low {
    /// The next digit, rounded down.
    #[inline(always)]
    fn next(self) -> Low
        requires mantissa { self.mantissa < 10 * one_mantissa }
        requires digits { self.digits < 2 ^ 32 }
        ensures { result ≡ turn_low self }
    {
        let square = u128::from(self.mantissa) * u128::from(self.mantissa);
        let (mantissa, one) = over_one_or_ten(square);
        Low {
            mantissa,
            digits: with_digit(self.digits, one),
        }
    }
}

/// The same of a high end. It keeps the number below its mantissa, since a quotient rounded up is one more than that
/// of the number below, rounded down.
#[derive(Clone, Copy, Drop)]
struct High {
    below: u64,
    digits: u64,
}

impl Model for High {
    ghost use Rattle.std.specs.Prelude.{◌+◌, ◌-◌};
    ghost use Rattle.fix_interval.specs.Lg.{LgTurn};

    ghost Value = { LgTurn };

    ghost view = { λ t. record { mantissa = t.below + 1; digits = t.digits } };

    ghost inverse = { λ t. record { below = t.mantissa - 1; digits = t.digits } };
}

impl High {
    /// The next digit, rounded up. The number below the square of a mantissa is the product of the numbers beside it.
    #[inline(always)]
    fn next(self) -> High
        requires mantissa { self.mantissa ≤ 10 * one_mantissa }
        requires digits { self.digits < 2 ^ 32 }
        ensures { result ≡ turn_high self }
    {
        let below_square = u128::from(self.below) * u128::from(self.below + 2);
        let (below, one) = over_one_or_ten(below_square);
        High {
            below,
            digits: with_digit(self.digits, one),
        }
    }

    /// The digits, rounded up: one more where something is left.
    fn rounded_up(self) -> u64
        requires { self.digits < 2 ^ 32 }
        ensures { result ≡ rounded_up self }
    {
        self.digits + u64::from(self.below != ONE - 1)
    }
}

/// The digits and one more.
#[inline(always)]
fn with_digit(digits: u64, one: bool) -> u64
    requires { digits < 2 ^ 32 }
    ensures { result ≡ 2 * digits + (if one then 1 else 0) }
{
    2 * digits + u64::from(one)
}

/// A product of two mantissas as a mantissa, rounded down, over 10 where it reaches that, and whether it does. Half
/// the product fits 64 bits where the product doesn't.
#[inline(always)]
fn over_one_or_ten(product: u128) -> (u64, bool)
    requires { product < 100 * one_mantissa * one_mantissa }
    ensures quotient { result.0 ≡ mantissa_over product }
    ensures ten { result.1 ≡ reaches_ten product }
{
    let half = (product >> 59) as u64;
    let whole = ((product >> 58) & WORD) as u64;
    let ten = (product >> 64) as u64 >= 10 << 52;
    (choose(ten, half / 5, whole), ten)
}

/// One of two numbers, without a branch: which one is as good as random here, so a branch would often be
/// guessed wrongly.
#[inline(always)]
fn choose(first: bool, one: u64, other: u64) -> u64
    ensures { result ≡ (if first then one else other) }
{
    other.wrapping_add(one.wrapping_sub(other).wrapping_mul(u64::from(first)))
}

/// All 32 digits of two mantissas: of the first with quotients rounded down, and of the second with quotients rounded
/// up, one more where something is left. They are guessed, and only where a guess isn't right are they taken one by one.
pub(crate) fn digits(low: u64, high: u64) -> (u64, u64)
    requires low_least { one_mantissa ≤ low }
    requires low_below { low < 10 * one_mantissa }
    requires high_least { one_mantissa ≤ high }
    requires high_most { high ≤ 10 * one_mantissa }
    ensures low { result.0 ≡ (digits_low low).digits }
    ensures low_bound { result.0 < 2 ^ 32 }
    ensures high { result.1 ≡ rounded_up (digits_high high) }
    ensures high_bound { result.1 ≤ 2 ^ 32 }
{
    let Some(down) = tested_digits(low) else {
        return digits_by_turns(low, high);
    };
    let Some(up) = tested_digits(high) else {
        return digits_by_turns(low, high);
    };
    (u64::from(down), u64::from(up) + 1)
}

/// The same digits one by one, those of both mantissas side by side.
fn digits_by_turns(low: u64, high: u64) -> (u64, u64)
    requires low_least { one_mantissa ≤ low }
    requires low_below { low < 10 * one_mantissa }
    requires high_least { one_mantissa ≤ high }
    requires high_most { high ≤ 10 * one_mantissa }
    ensures low { result.0 ≡ (digits_low low).digits }
    ensures low_bound { result.0 < 2 ^ 32 }
    ensures high { result.1 ≡ rounded_up (digits_high high) }
    ensures high_bound { result.1 ≤ 2 ^ 32 }
{
    let mut down = Low {
        mantissa: low,
        digits: 0,
    };
    let mut up = High {
        below: high - 1,
        digits: 0,
    };
    for _turn in 0..32u32 {
        down = down.next();
        up = up.next();
    }
    (down.digits, up.rounded_up())
}
