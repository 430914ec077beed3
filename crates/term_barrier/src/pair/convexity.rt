//! Whether sound bends over two edges.

ghost use Rattle.std.specs.Prelude.{◌≡◌};
ghost use Rattle.term_barrier.specs.inner.Prepared.{both_of, convexity_of};

use crate::single::passage::EdgePassage;
use fix_interval::{Truth, less, mul};

/// Whether sound bends over both edges: the second lies behind the first, the first rises above the line from the source
/// to the second, and the second above that from the first to the receiver. The first of these that never holds decides:
/// mostly it is the order, which takes no product.
pub(crate) fn convexity(first: &EdgePassage, second: &EdgePassage) -> Truth
    ensures { result ≡ convexity_of first.now second.now }
{
    let in_order = less(first.before, second.before);
    if let Truth::Never = in_order {
        return in_order;
    }
    let bends_at_first = less(
        mul(second.over_source, first.before),
        mul(first.over_source, second.before),
    );
    if let Truth::Never = bends_at_first {
        return bends_at_first;
    }
    let bends_at_second = less(
        mul(first.over_receiver, second.behind),
        mul(second.over_receiver, first.behind),
    );
    both(in_order, both(bends_at_first, bends_at_second))
}

/// Whether two statements hold.
fn both(a: Truth, b: Truth) -> Truth
    ensures { result ≡ both_of a b }
{
    match (a, b) {
        (Truth::Never, _) | (_, Truth::Never) => Truth::Never,
        (Truth::Sure, Truth::Sure) => Truth::Sure,
        _ => Truth::Unsure,
    }
}
