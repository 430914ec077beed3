//! The type of an interval and its ends.

ghost use Rattle.std.specs.Prelude.{◌≡◌, unwrap_or};
ghost use Rattle.fix_interval.specs.Interval.{Interval, IsInterval, open_low, open_high};

use std::marker::Model;

/// What `Iv::lo` gives for an unbounded low end: the least number, as minus infinity.
pub const OPEN_LO: i128 = i128::MIN;

/// What `Iv::hi` gives for an unbounded high end: the greatest number, as plus infinity.
pub const OPEN_HI: i128 = i128::MAX;

/// An interval: the least and the greatest value that a quantity may have, each in units of 2^-32, or
/// unbounded. A bounded end lies strictly between -2^126 and 2^126, and the low end is not above the
/// high end. It is kept as two numbers, where `OPEN_LO` and `OPEN_HI` stand for unbounded ends.
#[derive(Clone, Copy, Drop)]
pub struct Iv {
    lo: i128,
    hi: i128,
}

impl Model for Iv {
    ghost use Rattle.std.specs.Prelude.{unwrap_or};
    ghost use Rattle.fix_interval.specs.Interval.{Interval, IsInterval, open_low, open_high};
    ghost use Rattle.fix_interval.specs.Numbers.{of_numbers, number-kept};

    ghost Value = { Interval };

    ghost view = { λ v. of_numbers v.lo v.hi };

    ghost invariant = { λ v. IsInterval (of_numbers v.lo v.hi) };

    ghost inverse = { λ i. record { lo = unwrap_or i.lo open_low; hi = unwrap_or i.hi open_high } };

    ghost inverse_ok = { λ v h i. record {
      lo = number-kept open_low v.lo i;
      hi = number-kept open_high v.hi i;
    } };
}

impl Iv {
    /// The interval of all numbers: both ends are unbounded.
    pub const ALL: Iv = Iv {
        lo: OPEN_LO,
        hi: OPEN_HI,
    };

    /// The interval with these ends, in units of 2^-32; `None` is an unbounded end.
    pub const fn of_ends(lo: Option<i128>, hi: Option<i128>) -> Iv
        requires { IsInterval (record { lo = lo; hi = hi }) }
        ensures { result ≡ record { lo = lo; hi = hi } }
    {
        Iv {
            lo: match lo {
                Some(end) => end,
                None => OPEN_LO,
            },
            hi: match hi {
                Some(end) => end,
                None => OPEN_HI,
            },
        }
    }

    /// The low end in units of 2^-32, or `None` where it is unbounded.
    pub const fn low(&self) -> Option<i128>
        ensures end { result ≡ self.now.lo }
        ensures interval { IsInterval self.now }
    {
        if self.lo == OPEN_LO {
            None
        } else {
            Some(self.lo)
        }
    }

    /// The high end in units of 2^-32, or `None` where it is unbounded.
    pub const fn high(&self) -> Option<i128>
        ensures end { result ≡ self.now.hi }
        ensures interval { IsInterval self.now }
    {
        if self.hi == OPEN_HI {
            None
        } else {
            Some(self.hi)
        }
    }

    /// The low end in units of 2^-32, or `OPEN_LO` where it is unbounded.
    pub const fn lo(&self) -> i128
        ensures number { result ≡ unwrap_or self.now.lo open_low }
        ensures interval { IsInterval self.now }
    {
        self.lo
    }

    /// The high end in units of 2^-32, or `OPEN_HI` where it is unbounded.
    pub const fn hi(&self) -> i128
        ensures number { result ≡ unwrap_or self.now.hi open_high }
        ensures interval { IsInterval self.now }
    {
        self.hi
    }
}
