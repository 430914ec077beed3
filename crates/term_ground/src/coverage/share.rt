//! The ground factors of the regions of a path.

ghost use Rattle.std.specs.Prelude.{◌≡◌, [], ◌∷◌, IfSome};
ghost use Rattle.fix_interval.specs.Tree.{Known, Pick, Max, Min, enc};
ghost use Rattle.fix_interval.specs.Values.{sub_of};
ghost use Rattle.path_shape.specs.Shape.{IsPath};
ghost use Rattle.path_shape.specs.declared.path.Path.{Path};
ghost use Rattle.path_shape.specs.Forms.{zero_form, one_form};
ghost use Rattle.term_ground.specs.Lengths as form;
ghost use Rattle.term_ground.specs.Regions.{share_of, known_share};
ghost use Rattle.term_ground.specs.Regions as regions;
ghost use Rattle.term_ground.specs.declared.legs.region.Region.TheVariants.{Source, Middle, Receiver};
ghost use Rattle.term_ground.specs.inner.Extents.{by_ends, regional_of};
ghost use Rattle.term_ground.specs.inner.Lines.{IsLine};
ghost use Rattle.term_ground.specs.inner.Walks.{IsRoute, with_zones, with_term_of, same};
ghost use Rattle.term_ground.specs.inner.Widths as wide;

use crate::coverage::covering::lengths_on;
use crate::coverage::lengths::factor;
use crate::coverage::line::Line;
use crate::coverage::walk::{lies_beside, walk};
use crate::extents::extent::{Extent, Extents};
use crate::extents::quotients::{divides, is_nothing, over_width};
use crate::legs::leg::Route;
use crate::legs::region::Region;
use crate::legs::route::route_of;
use crate::legs::stretch::{Regional, middle_from, widths_of};
use fix_interval::{Iv, add, div, exact, less, max, min, mul, pick, sub};
use path_shape::Path;
use scene_parts::Zone;

/// The ground factor G of a region of a path (ISO 9613-2, 7.3.1), from 0 to 1: the part of it that is porous, where a
/// zone is porous by its own factor and the ground outside of zones by `g0` hundredths.
pub fn region_share(zones: &[Zone], g0: u8, path: &Path, region: Region) -> Iv
    requires { IsPath path.now }
    ensures { result ≡ enc (share_of region zones.now g0 path.now (Known path.now.dp)) }
{
    let all = shares(zones, g0, path);
    match region {
        Region::Source => all.source,
        Region::Middle => all.middle,
        Region::Receiver => all.receiver,
    }
}

/// The ground factors of the three regions.
pub(crate) fn shares(zones: &[Zone], g0: u8, path: &Path) -> Regional
    requires { IsPath path.now }
    ensures source { result.source ≡ known_share Source zones.now g0 path.now }
    ensures middle { result.middle ≡ known_share Middle zones.now g0 path.now }
    ensures receiver { result.receiver ≡ known_share Receiver zones.now g0 path.now }
{
    let outside = factor(g0);
    if zones.is_empty() && g0 <= 100 {
        return alike(outside);
    }
    let sums = sums(zones, outside, path);
    let zero = exact(0);
    Regional {
        source: share(sums.source, outside, zero, path.dp),
        middle: share(sums.middle, outside, middle_from(path), path.dp),
        receiver: share(sums.receiver, outside, zero, path.dp),
    }
}

/// The same quantity for each region.
fn alike(quantity: Iv) -> Regional
    ensures { result ≡ same quantity }
{
    Regional {
        source: quantity,
        middle: quantity,
        receiver: quantity,
    }
}

/// A sum kept within 0 and 1, where the plan length is greater than a limit, and else the ground factor outside of zones.
fn share(sum: Iv, outside: Iv, limit: Iv, dp: Iv) -> Iv
    ensures { result
        ≡ enc (Pick (Known dp) (Known limit) (Max zero_form (Min one_form (Known sum))) (Known outside)) }
{
    pick(less(limit, dp), max(exact(0), min(exact(1), sum)), outside)
}

/// The ground factor outside of zones and what each zone that meets the path adds to it in each region.
fn sums(zones: &[Zone], outside: Iv, path: &Path) -> Regional
    requires { IsPath path.now }
    ensures { result ≡ with_zones zones.now outside path.now (same outside) }
{
    match short_sums(zones, outside, path) {
        Some(sums) => sums,
        None => sums_by_legs(zones, outside, path),
    }
}

/// The same on a direct path. None where 64 bits don't hold it.
fn short_sums(zones: &[Zone], outside: Iv, path: &Path) -> Option<Regional>
    requires { IsPath path.now }
    ensures { IfSome result (λ sums. sums ≡ with_zones zones.now outside path.now (same outside)) }
{
    let line = Line::of(path)?;
    let sums = sums_along(zones, Extent::of(outside)?, &line)?;
    Some(sums.intervals())
}

/// The same along a line.
fn sums_along(zones: &[Zone], outside: Extent, line: &Line) -> Option<Extents>
    ensures { IfSome result (λ sums. (path : Path) → IsLine line.now path → regional_of sums
        ≡ with_zones zones.now (by_ends outside) path (same (by_ends outside))) }
{
    let mut total = Extents {
        source: outside,
        middle: outside,
        receiver: outside,
    };
    for zone in zones {
        total = with_zone(total, zone, outside, line)?;
    }
    Some(total)
}

/// The sums with what a zone adds to them, which is nothing where it doesn't meet the path.
#[inline(always)]
fn with_zone(total: Extents, zone: &Zone, outside: Extent, line: &Line) -> Option<Extents>
    ensures { IfSome result (λ sums. (path : Path) → IsLine line.now path → regional_of sums
        ≡ with_zones (zone.now ∷ []) (by_ends outside) path (regional_of total)) }
{
    let outline = zone.points.items();
    if lies_beside(outline, line) {
        return Some(total);
    }
    let crossed = walk(outline, line)?;
    if !crossed.is_met() {
        return Some(total);
    }
    let difference = difference(zone.g, outside)?;
    let lengths = crossed.held(outline);
    let widths = line.widths;
    Some(Extents {
        source: with_term(total.source, difference, lengths.source, widths.source)?,
        middle: with_term(total.middle, difference, lengths.middle, widths.middle)?,
        receiver: with_term(
            total.receiver,
            difference,
            lengths.receiver,
            widths.receiver,
        )?,
    })
}

/// By how much a ground factor of so many hundredths differs from that outside of zones.
#[inline(always)]
fn difference(g: u8, outside: Extent) -> Option<Extent>
    ensures { IfSome result (λ difference. by_ends difference
        ≡ sub_of (enc (form.factor g)) (by_ends outside)) }
{
    Extent::of(factor(g))?.less(outside)
}

/// A sum with the term of a zone: the difference that it makes over a length, as a part of the width of the stretch.
#[inline(always)]
fn with_term(sum: Extent, difference: Extent, length: Extent, width: Extent) -> Option<Extent>
    ensures { IfSome result (λ after. by_ends after
        ≡ with_term_of (by_ends sum) (by_ends difference) (by_ends length) (by_ends width)) }
{
    if is_nothing(length) && divides(width) {
        return Some(sum);
    }
    let product = mul(difference.interval(), length.interval());
    sum.plus(Extent::of(over_width(product, width))?)
}

/// The sums by the legs of any path.
fn sums_by_legs(zones: &[Zone], outside: Iv, path: &Path) -> Regional
    requires { IsPath path.now }
    ensures { result ≡ with_zones zones.now outside path.now (same outside) }
{
    let mut total = alike(outside);
    let route = route_of(path);
    let widths = widths_of(&route.stretches);
    for zone in zones {
        total = with_zone_by_legs(total, zone, outside, &route, &widths);
    }
    total
}

/// The sums with what a zone adds to them by the legs of a path.
fn with_zone_by_legs(
    total: Regional,
    zone: &Zone,
    outside: Iv,
    route: &Route,
    widths: &Regional,
) -> Regional
    requires { widths.now ≡ wide.widths_of route.now.stretches }
    ensures { (path : Path) → IsRoute route.now path
        → result ≡ with_zones (zone.now ∷ []) outside path total }
{
    let Some(lengths) = lengths_on(zone.points.items(), route) else {
        return total;
    };
    let difference = sub(factor(zone.g), outside);
    Regional {
        source: with_any_term(total.source, difference, lengths.source, widths.source),
        middle: with_any_term(total.middle, difference, lengths.middle, widths.middle),
        receiver: with_any_term(
            total.receiver,
            difference,
            lengths.receiver,
            widths.receiver,
        ),
    }
}

/// A sum with the term of a zone, whatever the ends.
fn with_any_term(sum: Iv, difference: Iv, length: Iv, width: Iv) -> Iv
    ensures { result ≡ with_term_of sum difference length width }
{
    match (Extent::of(length), Extent::of(width)) {
        (Some(length), Some(width)) => {
            add(sum, over_width(mul(difference, length.interval()), width))
        }
        _ => add(sum, div(mul(difference, length), width)),
    }
}
