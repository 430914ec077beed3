//! What is kept for a receiver between its jobs.
ghost use Rattle.path_cache.specs.Sums.{Fits};
ghost use Rattle.touch_test.specs.Envelopes.{TellsOf};

use path_cache::{Bundle, RowSums};
use touch_test::Envelope;

/// The bundles of a receiver, beside each whether an edit touched it since, the sums of all their energies, a box round all
/// their paths, and, where it is known, a version in whose scene there was one of each source, in the order of the sources.
#[derive(Drop)]
pub(crate) struct Cache {
    pub bundles: Vec<Bundle>,
    pub marks: Vec<bool>,
    pub sums: RowSums,
    pub envelope: Envelope,
    pub order: Option<u64>,
    ghost fit: { Fits sums bundles.items },
    ghost tells: { TellsOf envelope bundles.items },
}
