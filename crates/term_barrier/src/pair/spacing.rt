//! What C_3 takes of the distance between two edges.

ghost use Rattle.std.specs.Prelude.{◌≡◌};
ghost use Rattle.term_barrier.specs.inner.Reaching.{spacing_of};

use fix_interval::{Iv, mul, over};

/// The square of the distance between two edges and a third of it, in square metres.
#[derive(Clone, Copy, Drop)]
pub(crate) struct EdgeSpacing {
    pub square: Iv,
    pub third: Iv,
}

impl EdgeSpacing {
    /// The spacing of two edges that lie `e` apart, in metres.
    pub(crate) fn of(e: Iv) -> EdgeSpacing
        ensures { result ≡ spacing_of e }
    {
        let square = mul(e, e);
        EdgeSpacing {
            square,
            third: over(square, 3),
        }
    }
}
