//! Reflections that are there.
ghost use Rattle.std.specs.Prelude.{◌≡◌};
ghost use Rattle.scene_geom.specs.Reflection.{CanReflect, unfolded};

use scene_geom::{Dir, Frac, Pt, Side, unfold};
use std::marker::Model;

/// The reflection in a side of an obstacle, as the path from a source to a receiver by way of it, unfolded (ISO 9613-2,
/// 7.5). The side and both ends alone determine it.
#[derive(Clone, Copy, Drop)]
pub struct Mirror {
    /// The fraction of the path that lies before the specular point: how far the source is from the line of the side, over
    /// how far both ends are, both times the side's length in mm and not reduced.
    pub p: Frac,
    /// The direction of the first leg, from the source, which ends at the place `p`.
    pub first: Dir,
    /// The direction of the second leg, from the receiver, which ends at the place `1 - p`.
    pub second: Dir,
    /// The square of the plan length of the path, in mm².
    pub plan2: Frac,
}

impl Model for Mirror {
    ghost use Rattle.scene_geom.specs.declared.reflection.Reflection.{Reflection};
    ghost use Rattle.image_source.specs.Mirrors.{IsMirror};

    ghost Value = { Reflection };

    ghost view = { λ m. record { first = m.first; second = m.second; p = m.p; square = m.plan2 } };

    ghost invariant = { λ m. IsMirror (record { first = m.first; second = m.second; p = m.p; square = m.plan2 }) };

    ghost inverse = { λ path. record { p = path.p; first = path.first; second = path.second; plan2 = path.square } };
}

impl Mirror {
    /// The reflection from a source to a receiver in a side that mirrors one to the other.
    pub fn of(side: Side, s: Pt, r: Pt) -> Mirror
        requires { CanReflect side s r }
        ensures { result ≡ unfolded side s r }
    {
        let plan = unfold(side, s, r);
        Mirror {
            p: plan.p,
            first: plan.first,
            second: plan.second,
            plan2: plan.square,
        }
    }
}
