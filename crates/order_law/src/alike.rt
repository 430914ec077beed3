//! The law of orders for two scenes at hand. That its zones, its foliage and its globals keep their limits is known by
//! their types.
ghost use Rattle.std.specs.Prelude.{◌≡◌, All};
ghost use Rattle.scene_parts.specs.Parts.{AreGlobals};
ghost use Rattle.scene_book.specs.Orders.{SameParts};
ghost use Rattle.scene_undo.specs.Scenes.{IsZoneWithin, IsFoliageWithin};
ghost use Rattle.path_calc.specs.Show.{show_of};

use scene_book::Scene;
use scene_parts::{Foliage, Globals, Receiver, Zone};

/// Where two scenes have the same parts in any order, they show a receiver with the same levels, to the last unit.
pub fn shows_alike(a: &Scene, b: &Scene, r: &Receiver)
    ensures { SameParts a.now b.now → show_of a.now r.now ≡ show_of b.now r.now }
{
    each_zone(a.zones());
    each_foliage(a.foliage());
    all_globals(a.globals());
}

/// Each zone keeps its limits.
fn each_zone(zones: &[Zone])
    ensures { All IsZoneWithin zones.now }
{
    for zone in zones {
        one_zone(zone);
    }
}

/// A zone keeps them by its type.
fn one_zone(zone: &Zone)
    ensures { IsZoneWithin zone.now }
{
    let _g = zone.g;
}

/// Each foliage keeps its limit.
fn each_foliage(foliage: &[Foliage])
    ensures { All IsFoliageWithin foliage.now }
{
    for one in foliage {
        one_foliage(one);
    }
}

/// A foliage keeps it by its type.
fn one_foliage(foliage: &Foliage)
    ensures { IsFoliageWithin foliage.now }
{
    let _h = foliage.h;
}

/// The globals of a scene keep their ranges by their type.
fn all_globals(globals: &Globals)
    ensures { AreGlobals globals.now }
{
    let _g = globals.g;
}
