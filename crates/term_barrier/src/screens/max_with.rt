//! The greatest of attenuations that are found one after another.

ghost use Rattle.std.specs.Prelude.{◌≡◌};
ghost use Rattle.term_barrier.specs.inner.Prepared.{max_with_of};

use fix_interval::{Iv, max};

/// The greater of what is the greatest so far, if there is anything yet, and what comes next.
pub(crate) fn max_with(best: Option<Iv>, next: Iv) -> Option<Iv>
    ensures { result ≡ max_with_of best next }
{
    match best {
        None => Some(next),
        Some(best) => Some(max(best, next)),
    }
}
