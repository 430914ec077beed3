//! How far the sound of a path goes through foliage.

ghost use Rattle.std.specs.Prelude.{◌≡◌, ◌<◌, ◌^◌, pos, map, IfSome};
ghost use Rattle.std.specs.Option.{option_map};
ghost use Rattle.fix_interval.specs.Bounds.{AreBetween};
ghost use Rattle.fix_interval.specs.Tree.{Known, enc};
ghost use Rattle.fix_interval.specs.Values.{ratio_of};
ghost use Rattle.path_shape.specs.Shape.{IsPath};
ghost use Rattle.term_foliage.specs.inner.Distances.{met_length, known_stretch};
ghost use Rattle.term_foliage.specs.inner.Distances as distances;
ghost use Rattle.term_foliage.specs.Foliage.{where_any, lengths_in, foliage_distance, attenuations, attenuations_over};
ghost use Rattle.term_foliage.specs.Foliage as form;

use fix_interval::{Iv, add, exact, max, min, mul, ratio};
use path_shape::{Path, Stretch, length_on};
use scene_parts::Foliage;

/// The distance in metres that the sound of a path whose length is `d` metres goes through foliage. None where the path
/// meets no foliage above which its sight line doesn't run: then each attenuation is exactly 0 dB, where the length is from
/// 0 m to 2^28 m.
pub fn distance_through(foliage: &[Foliage], path: &Path, d: Iv) -> Option<Iv>
    requires { IsPath path.now }
    ensures value { result ≡ where_any (lengths_in path.now foliage.now)
        (enc (foliage_distance foliage.now path.now (Known d))) }
    ensures bounds { AreBetween (pos 0) (pos (2 ^ 60)) d
        → IfSome result (AreBetween (pos 0) (pos (2 ^ 60))) }
    ensures attenuations { AreBetween (pos 0) (pos (2 ^ 60)) d
        → attenuations_over result ≡ map enc (attenuations foliage.now path.now (Known d)) }
{
    match length_in_all(foliage, path) {
        None => None,
        Some(length) => Some(mul(max(exact(0), min(exact(1), length)), d)),
    }
}

/// How much of a path runs through foliage, as a fraction of its plan length, where what lies over one another counts more
/// than once.
fn length_in_all(foliage: &[Foliage], path: &Path) -> Option<Iv>
    requires { IsPath path.now }
    ensures { result ≡ where_any (lengths_in path.now foliage.now)
        (enc (form.length_in_all foliage.now path.now)) }
{
    let mut total = None;
    for one in foliage {
        total = with_length(total, length_in(one, path));
    }
    total
}

/// A total with one length more, where there is one.
fn with_length(total: Option<Iv>, length: Option<Iv>) -> Option<Iv>
    ensures { result ≡ distances.with_length total length }
{
    match (total, length) {
        (total, None) => total,
        (None, Some(length)) => Some(add(exact(0), length)),
        (Some(total), Some(length)) => Some(add(total, length)),
    }
}

/// How much of a path runs through a foliage, below its top. None where the path doesn't meet it, or where its sight line
/// runs above the top.
fn length_in(foliage: &Foliage, path: &Path) -> Option<Iv>
    requires { IsPath path.now }
    ensures { result ≡ option_map enc (met_length path.now foliage.now) }
{
    match low_stretch(foliage.h, path.hs, path.hr) {
        None => None,
        Some(stretch) => length_on(foliage.points.items(), path, &stretch),
    }
}

/// From where to where the sight line runs below a top.
fn low_stretch(top: u32, hs: u32, hr: u32) -> Option<Stretch>
    ensures { result ≡ option_map known_stretch (form.low_stretch top hs hr) }
{
    if hs < top {
        if hr < top {
            Some(stretch(exact(0), exact(1)))
        } else {
            Some(stretch(exact(0), part(top - hs, hr - hs)))
        }
    } else if hr < top {
        Some(stretch(part(hs - top, hs - hr), exact(1)))
    } else {
        None
    }
}

fn stretch(from: Iv, to: Iv) -> Stretch
    ensures { result ≡ record { from = from; to = to } }
{
    Stretch { from, to }
}

/// A height as a part of another.
fn part(height: u32, whole: u32) -> Iv
    requires { 0 < whole }
    ensures { result ≡ ratio_of (pos height) whole }
{
    ratio(height.into(), whole.into())
}
