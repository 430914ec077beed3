//! Ground factors and lengths as intervals.

ghost use Rattle.std.specs.Prelude.{◌≡◌, ◌<◌, ◌^◌};
ghost use Rattle.fix_interval.specs.Tree.{enc};
ghost use Rattle.term_ground.specs.Lengths as form;

use fix_interval::{Iv, ratio};

/// A ground factor of so many hundredths.
pub(crate) fn factor(g: u8) -> Iv
    ensures { result ≡ enc (form.factor g) }
{
    ratio(g.into(), 100)
}

/// 30 times a height in mm, in metres.
pub(crate) fn thirty(h: u64) -> Iv
    requires { h < 2 ^ 33 }
    ensures { result ≡ enc (form.thirty h) }
{
    ratio(i128::from(30 * h), 1000)
}
