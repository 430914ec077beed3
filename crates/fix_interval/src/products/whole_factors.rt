//! A quantity times a whole number, and over one. Ends below 2^62 units, as nearly all are, are calculated in 64 bits.

ghost use Rattle.std.specs.Prelude.{◌≡◌, ◌<◌, pos};
ghost use Rattle.fix_interval.specs.Tree.{Known, Const, Mul, Div, enc};

use crate::iv::Iv;
use crate::products::mul;
use crate::products::short::short_ends;
use crate::quotients::{div, exact};

/// A quantity times a whole number.
#[inline(always)]
pub fn times(x: Iv, n: u32) -> Iv
    ensures { result ≡ enc (Mul (Known x) (Const (pos n) 1)) }
{
    match short_ends(x) {
        Some(ends) => ends.times(n),
        None => mul(x, exact(n.into())),
    }
}

/// A quantity over a whole number, rounded outward.
#[inline(always)]
pub fn over(x: Iv, n: u32) -> Iv
    requires { 0 < n }
    ensures { result ≡ enc (Div (Known x) (Const (pos n) 1)) }
{
    match short_ends(x) {
        Some(ends) => ends.over(n),
        None => div(x, exact(n.into())),
    }
}
