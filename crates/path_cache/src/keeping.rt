//! The bundles that were kept for a receiver.
ghost use Rattle.std.specs.Prelude.{◌≡◌, ◌<◌, None, IfNone, IfSome, bytes_eq, length, slice_get};
ghost use Rattle.path_cache.specs.Refreshed.{CanRefresh, unmarked};

use path_calc::Bundle;
use scene_parts::Name;

/// The place of the unmarked bundle of the source of a name. This one is looked at first: there it stands, where the
/// bundles were kept in the order of the sources and the last that was found stands before it.
pub(crate) fn find_unmarked(
    kept: &[Bundle],
    marks: &[bool],
    name: &Name,
    first: usize,
) -> Option<usize>
    requires { CanRefresh kept.now marks.now }
    ensures none { IfNone result (unmarked name.now kept.now marks.now ≡ None) }
    ensures some { IfSome result (λ place. (place < length kept.now)
        × (slice_get kept.now place ≡ unmarked name.now kept.now marks.now)) }
{
    if first < kept.len() {
        if is_of(&kept[first], name) {
            return if marks[first] { None } else { Some(first) };
        }
    }
    search_unmarked(kept, marks, name)
}

/// The same, looked for among all.
pub(crate) fn search_unmarked(kept: &[Bundle], marks: &[bool], name: &Name) -> Option<usize>
    requires { length marks.now ≡ length kept.now }
    ensures none { IfNone result (unmarked name.now kept.now marks.now ≡ None) }
    ensures some { IfSome result (λ place. (place < length kept.now)
        × (slice_get kept.now place ≡ unmarked name.now kept.now marks.now)) }
{
    for (place, bundle) in kept.iter().enumerate() {
        if !marks[place] && is_of(bundle, name) {
            return Some(place);
        }
    }
    None
}

/// Whether a bundle is that of the source of a name.
fn is_of(bundle: &Bundle, name: &Name) -> bool
    ensures { result ≡ bytes_eq name.now bundle.now.source }
{
    name.items() == bundle.source.items()
}
