//! Levels of whole numbers.
ghost use Rattle.std.specs.Prelude.{◌≡◌};
ghost use Rattle.fix_interval.specs.Tree.{Const, enc};

use fix_interval::{Iv, ratio};

/// Hundredths of a decibel, in dB.
pub(crate) fn hundredths(level: i32) -> Iv
    ensures { result ≡ enc (Const level 100) }
{
    ratio(level.into(), 100)
}
