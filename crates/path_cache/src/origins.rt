//! Where each bundle of a refreshed row comes from.
ghost use Rattle.std.specs.Prelude.{◌≡◌, ◌≤◌, ◌<◌, ◌^◌, ◌++◌, ◌∷◌, [], IfOk, OnOk, Some, length, slice_get};
ghost use Rattle.path_cache.specs.Sums.{Fits};
ghost use Rattle.path_cache.specs.Origins.{Ascend, bundles_from};
ghost use Rattle.path_cache.specs.inner.Origins.{place_after};

use crate::sums::RowSums;
use path_calc::Bundle;
use scene_parts::NoMemory;
use std::alloc::Global;

/// Where a bundle of a refreshed row comes from.
#[derive(Drop)]
pub(crate) enum Origin {
    /// The kept bundle at this place goes over.
    Kept(usize),
    /// This one was calculated, or copied of a kept one that stands out of the order of sources. It stands behind a box, so
    /// that the origins of a row of which one source moved are short.
    New(Box<Bundle>),
}

/// Origins in the order of sources, and the first place behind those of the kept bundles among them.
#[derive(Drop)]
pub(crate) struct Origins {
    pub list: Vec<Origin>,
    pub next: usize,
}

impl Origins {
    /// Adds the origin of one bundle more.
    pub(crate) fn push(&mut self, origin: Origin) -> Result<(), NoMemory>
        requires { place_after self.old.next origin < 2 ^ 64 }
        ensures list { OnOk result (self.new.list.items ≡ self.old.list.items ++ origin ∷ []) }
        ensures next { OnOk result (self.new.next ≡ place_after self.old.next origin) }
    {
        if let Origin::Kept(place) = &origin {
            self.next = *place + 1;
        }
        self.list.push(origin)?;
        Ok(())
    }
}

/// The bundles of some origins, where those that were kept are copied.
pub(crate) fn copied(
    alloc: Global,
    kept: &[Bundle],
    origins: Vec<Origin>,
) -> Result<Vec<Bundle>, NoMemory>
    requires { Ascend 0 origins.items (length kept.now) }
    ensures { IfOk result (λ bundles. bundles.items ≡ bundles_from kept.now origins.items) }
{
    let mut bundles = Vec::with_capacity(alloc, origins.len())?;
    for origin in origins {
        let bundle = match origin {
            Origin::Kept(place) => copy_at(kept, place)?,
            Origin::New(bundle) => Box::into_inner(bundle),
        };
        bundles.push(bundle)?;
    }
    Ok(bundles)
}

/// A copy of the bundle at a place, behind a box. Like a calculation, it isn't put into its callers.
#[inline(never)]
pub(crate) fn boxed_copy(
    alloc: Global,
    kept: &[Bundle],
    place: usize,
) -> Result<Box<Bundle>, NoMemory>
    requires { place < length kept.now }
    ensures { IfOk result (λ bundle. slice_get kept.now place ≡ Some bundle.value) }
{
    Ok(Box::new(alloc, copy_at(kept, place)?)?)
}

/// A copy of the bundle at a place.
fn copy_at(kept: &[Bundle], place: usize) -> Result<Bundle, NoMemory>
    requires { place < length kept.now }
    ensures { IfOk result (λ bundle. slice_get kept.now place ≡ Some bundle) }
{
    Ok(kept[place].clone()?)
}

/// The sums of the bundles of some origins: kept bundles that don't go over are taken off, new ones are added.
pub(crate) fn sums_after(kept: &[Bundle], origins: &[Origin], sums: &RowSums) -> RowSums
    requires ascend { Ascend 0 origins.now (length kept.now) }
    requires few_kept { length kept.now ≤ 128 }
    requires few { length origins.now ≤ 128 }
    requires fit { Fits sums.now kept.now }
    ensures { Fits result (bundles_from kept.now origins.now) }
{
    let mut after = *sums;
    let mut next = 0;
    for origin in origins {
        match origin {
            Origin::Kept(place) => {
                after.take_off_between(kept, next, *place);
                next = *place + 1;
            }
            Origin::New(bundle) => after.add(bundle),
        }
    }
    after.take_off_between(kept, next, kept.len());
    after
}
