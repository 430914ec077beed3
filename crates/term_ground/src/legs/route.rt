//! From paths to their legs.

ghost use Rattle.std.specs.Prelude.{◌≡◌};
ghost use Rattle.scene_geom.specs.Direction.{FitsDirection};
ghost use Rattle.scene_geom.specs.Fraction.{FitsEnd};
ghost use Rattle.path_shape.specs.Shape.{IsPath};
ghost use Rattle.term_ground.specs.inner.Walks.{IsRoute, IsLeg};
ghost use Rattle.term_ground.specs.inner.Walks.{each_stretch};
ghost use Rattle.path_shape.specs.inner.Stretches.{on_first_leg, on_second_leg};

use crate::extents::extent::Sections;
use crate::legs::leg::{Leg, Route};
use crate::legs::stretch::{Stretches, regions_of};
use path_shape::{Legs, Path, place};
use scene_geom::{Dir, Frac, Pt, rest_after};

/// The legs of a path.
pub(crate) fn route_of(path: &Path) -> Route
    requires { IsPath path.now }
    ensures { IsRoute result path.now }
{
    let stretches = regions_of(path);
    match path.legs {
        Legs::One(dir) => Route {
            stretches,
            first: leg_from(path.s, dir, Frac { n: 1, d: 1 }, stretches),
            second: None,
        },
        Legs::Two(first, second, p) => Route {
            stretches,
            first: leg_from(path.s, first, p, before_wall(&stretches, p)),
            second: Some(leg_from(path.r, second, rest_after(p), behind_wall(&stretches, p))),
        },
    }
}

fn leg_from(start: Pt, dir: Dir, end: Frac, stretches: Stretches) -> Leg
    requires dir { FitsDirection dir }
    requires end { FitsEnd end }
    ensures { IsLeg result start dir end stretches }
{
    Leg {
        start,
        dir,
        end,
        stretches,
        sections: Sections::of(&stretches),
    }
}

/// The regions on the first leg, which ends at `p`.
fn before_wall(stretches: &Stretches, p: Frac) -> Stretches
    ensures { result ≡ each_stretch (on_first_leg p) stretches.now }
{
    let end = place(p);
    Stretches {
        source: stretches.source.up_to(end),
        middle: stretches.middle.up_to(end),
        receiver: stretches.receiver.up_to(end),
    }
}

/// The regions on the second leg, whose places count from the receiver.
fn behind_wall(stretches: &Stretches, p: Frac) -> Stretches
    requires { FitsEnd p }
    ensures { result ≡ each_stretch (on_second_leg p) stretches.now }
{
    let end = place(rest_after(p));
    Stretches {
        source: stretches.source.turned().up_to(end),
        middle: stretches.middle.turned().up_to(end),
        receiver: stretches.receiver.turned().up_to(end),
    }
}
