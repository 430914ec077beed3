//! Where the regions of a path begin and end.

ghost use Rattle.std.specs.Prelude.{◌≡◌, ◌+◌};
ghost use Rattle.fix_interval.specs.Tree.{Known, enc};
ghost use Rattle.term_ground.specs.Regions as regions;
ghost use Rattle.term_ground.specs.inner.Walks.{stretches_of};
ghost use Rattle.term_ground.specs.inner.Widths as wide;

use crate::coverage::lengths::thirty;
use crate::extents::quotients::over_length;
use fix_interval::{Iv, exact, min, sub};
use path_shape::{Path, Stretch};

/// The stretches that are the regions of a path.
#[derive(Clone, Copy, Drop)]
pub(crate) struct Stretches {
    pub source: Stretch,
    pub middle: Stretch,
    pub receiver: Stretch,
}

/// A quantity of each region of a path.
#[derive(Clone, Copy, Drop)]
pub(crate) struct Regional {
    pub source: Iv,
    pub middle: Iv,
    pub receiver: Iv,
}

/// The regions of a path.
pub(crate) fn regions_of(path: &Path) -> Stretches
    ensures { result ≡ stretches_of path.now }
{
    let one = exact(1);
    let by_source = over_length(thirty(path.hs.into()), path.dp);
    let by_receiver = over_length(thirty(path.hr.into()), path.dp);
    Stretches {
        source: Stretch {
            from: exact(0),
            to: min(one, by_source),
        },
        middle: Stretch {
            from: by_source,
            to: sub(one, by_receiver),
        },
        receiver: Stretch {
            from: sub(one, min(one, by_receiver)),
            to: one,
        },
    }
}

/// How wide the regions are.
pub(crate) fn widths_of(stretches: &Stretches) -> Regional
    ensures { result ≡ wide.widths_of stretches.now }
{
    Regional {
        source: sub(stretches.source.to, stretches.source.from),
        middle: sub(stretches.middle.to, stretches.middle.from),
        receiver: sub(stretches.receiver.to, stretches.receiver.from),
    }
}

/// The plan length beyond which a path has a middle region, in metres.
pub(crate) fn middle_from(path: &Path) -> Iv
    ensures { result ≡ enc (regions.middle_from path.now) }
{
    thirty(u64::from(path.hs) + u64::from(path.hr))
}
