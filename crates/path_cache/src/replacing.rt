//! Refreshes of rows whose kept bundles stand as the sources of the scene do: new bundles take the places of those that
//! are marked, and of the others nothing but the mark is looked at.
ghost use Rattle.std.specs.Prelude.{◌≡◌, ◌≤◌, ◌<◌, ◌+◌, IfOk, OnOk, All, length, slice_get, slice_set};
ghost use Rattle.path_cache.specs.Refreshed.{refreshed, count_wanted};
ghost use Rattle.path_cache.specs.Standing.{StandAsSources};
ghost use Rattle.path_cache.specs.Sums.{Fits};
ghost use Rattle.path_cache.specs.Renewals.{with_each};

use crate::refreshing::Renewal;
use crate::sums::RowSums;
use path_calc::{Bundle, Steps, Workspace};
use scene_parts::NoMemory;
use std::alloc::Global;
use std::sync::ledger::Ledger;

/// A new bundle, and the place of the kept one that it replaces.
#[derive(Drop)]
pub struct Replaced {
    pub place: usize,
    pub bundle: Box<Bundle>,
}

/// New bundles, and the sums of the kept ones with these in their places.
#[derive(Drop)]
pub(crate) struct Replacing {
    pub news: Vec<Replaced>,
    pub sums: RowSums,
}

impl Replacing {
    /// Puts a new bundle in the place of a kept one that wasn't replaced before.
    fn put(&mut self, kept: &[Bundle], place: usize, bundle: Box<Bundle>) -> Result<(), NoMemory>
        requires place { place < length kept.now }
        requires few { length kept.now ≤ 128 }
        requires stands { slice_get (with_each self.old.news.items kept.now) place
            ≡ slice_get kept.now place }
        requires fit { Fits self.old.sums (with_each self.old.news.items kept.now) }
        ensures bundles { OnOk result (with_each self.new.news.items kept.now
            ≡ slice_set (with_each self.old.news.items kept.now) place bundle.value) }
        ensures places { OnOk result (All (λ new. new.place < length kept.now) self.old.news.items
            → All (λ new. new.place < length kept.now) self.new.news.items) }
        ensures fit { OnOk result (Fits self.new.sums (with_each self.new.news.items kept.now)) }
    {
        self.sums.take_off(&kept[place]);
        self.sums.add(&bundle);
        self.news.push(Replaced { place, bundle })?;
        Ok(())
    }
}

/// The new bundles of a receiver in a scene whose kept ones stand as the sources do: those of the sources whose bundles
/// are marked. One step is counted for each.
pub(crate) fn replace_marked<L: Ledger>(
    alloc: Global,
    renewal: &Renewal<'_>,
    sums: &RowSums,
    steps: &mut Steps<L>,
) -> Result<Replacing, NoMemory>
    requires fit { Fits sums.now renewal.now.kept.now }
    requires stand { StandAsSources renewal.now.scene.now renewal.now.receiver.now
        renewal.now.kept.now }
    ensures value { IfOk result (λ row. with_each row.news.items renewal.now.kept.now
        ≡ refreshed renewal.now.scene.now renewal.now.receiver.now
        renewal.now.kept.now renewal.now.marks.now) }
    ensures places { IfOk result (λ row.
        All (λ new. new.place < length renewal.now.kept.now) row.news.items) }
    ensures fit { IfOk result (λ row.
        Fits row.sums (with_each row.news.items renewal.now.kept.now)) }
    ensures steps { OnOk result (steps.new
        ≡ steps.old + count_wanted renewal.now.scene.now renewal.now.receiver.now
        renewal.now.kept.now renewal.now.marks.now) }
    ensures most { steps.new
        ≤ steps.old + count_wanted renewal.now.scene.now renewal.now.receiver.now
        renewal.now.kept.now renewal.now.marks.now }
{
    let sources = renewal.scene.sources();
    let mut workspace = Workspace::new(alloc);
    let mut row = Replacing {
        news: Vec::new(alloc),
        sums: *sums,
    };
    for (place, marked) in renewal.marks.iter().enumerate() {
        if *marked {
            let source = &sources[place];
            let from = &renewal.prepared[place];
            let bundle = renewal.calculated(alloc, source, from, &mut workspace, steps)?;
            row.put(renewal.kept, place, bundle)?;
        }
    }
    Ok(row)
}

/// Kept bundles with new ones, each in its place. No other is moved.
pub(crate) fn put_each(news: Vec<Replaced>, kept: Vec<Bundle>) -> Vec<Bundle>
    requires { All (λ new. new.place < length kept.items) news.items }
    ensures { result.items ≡ with_each news.items kept.items }
{
    let mut bundles = kept;
    for replaced in news {
        let Replaced { place, bundle } = replaced;
        bundles[place] = Box::into_inner(bundle);
    }
    bundles
}
