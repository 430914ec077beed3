//! Plan segments along which a source and a receiver read the obstacles and the zones of a scene.
ghost use Rattle.std.specs.Prelude.{◌≡◌, [], ◌∷◌, ◌++◌, All, IfOk, OnOk};
ghost use Rattle.path_calc.specs.Segments.{FitsSegment};

use crate::workspace::FIRST_ROOM;
use scene_geom::{Pt, Side};
use scene_parts::NoMemory;
use std::alloc::{AllocError, Global};
use std::marker::Model;
use std::slice;

/// A plan segment, or both legs of the path by way of a reflecting side from source to receiver.
#[derive(Clone, Copy, Debug, PartialEq, Eq)]
pub enum Seg {
    Straight(Pt, Pt),
    Legs(Side, Pt, Pt),
}

/// Plan segments in an order. Each side whose legs are among them is at most 262,143 mm long and has source and receiver
/// strictly on one side of its line. Contracts see it as the list of the segments.
#[derive(Debug, Drop)]
pub struct Segs {
    held: Held,
}

/// Where segments stand. A single one, as of a path in the open, takes no memory of its own.
#[derive(Debug, Drop)]
enum Held {
    Nothing(Global),
    One(Global, Seg),
    Many(Vec<Seg>),
}

impl Model for Segs {
    ghost use Rattle.std.specs.Prelude.{List, All};
    ghost use Rattle.path_calc.specs.declared.bundles.segments.Seg.{Seg};
    ghost use Rattle.path_calc.specs.Segments.{FitsSegment};
    ghost use Rattle.path_calc.specs.HeldSegments.{segments_in};

    ghost Value = { List Seg };

    ghost view = { λ s. segments_in s.held };

    ghost invariant = { λ s. All FitsSegment (segments_in s.held) };
}

impl Clone for Segs {
    ghost use Rattle.std.specs.Prelude.{◌≡◌};

    ghost is_clone = { λ segs copy. copy ≡ segs };

    fn clone(&self) -> Result<Self, AllocError> {
        let held = match &self.held {
            Held::Nothing(alloc) => Held::Nothing(*alloc),
            Held::One(alloc, segment) => Held::One(*alloc, *segment),
            Held::Many(segments) => Held::Many(segments.clone()?),
        };
        Ok(Segs { held })
    }
}

impl Segs {
    /// No segments.
    pub(crate) fn new(alloc: Global) -> Self
        ensures { result ≡ [] }
    {
        Segs {
            held: Held::Nothing(alloc),
        }
    }

    /// Takes all segments out, and keeps their memory for others.
    pub(crate) fn clear(&mut self)
        ensures { self.new ≡ [] }
    {
        match &mut self.held {
            Held::Nothing(_) => {}
            Held::One(alloc, _) => self.held = Held::Nothing(*alloc),
            Held::Many(segments) => segments.clear(),
        }
    }

    /// The same segments in memory of exactly their length: in none, where it is a single one.
    pub(crate) fn copied(&self, alloc: Global) -> Result<Segs, NoMemory>
        ensures value { IfOk result (λ copy. copy ≡ self.now) }
        ensures fit { IfOk result (All FitsSegment) }
    {
        let held = match self.items() {
            [] => Held::Nothing(alloc),
            [segment] => Held::One(alloc, *segment),
            segments => Held::Many(segments.to_vec(alloc)?),
        };
        Ok(Segs { held })
    }

    /// Adds a segment at the end.
    pub(crate) fn push(&mut self, segment: Seg) -> Result<(), NoMemory>
        requires { FitsSegment segment }
        ensures { OnOk result (self.new ≡ self.old ++ segment ∷ []) }
    {
        match &mut self.held {
            Held::Nothing(alloc) => self.held = Held::One(*alloc, segment),
            Held::One(alloc, first) => self.held = Held::Many(both(*alloc, *first, segment)?),
            Held::Many(segments) => segments.push(segment)?,
        }
        Ok(())
    }

    /// The list of these segments.
    pub fn from_vec(items: Vec<Seg>) -> Self
        requires { All FitsSegment items.items }
        ensures { result ≡ items.items }
    {
        Segs {
            held: Held::Many(items),
        }
    }

    /// The segments in their order.
    pub fn items(&self) -> &[Seg]
        ensures value { result.now ≡ self.now }
        ensures fit { All FitsSegment self.now }
    {
        match &self.held {
            Held::Nothing(_) => &[],
            Held::One(_, segment) => slice::from_ref(segment),
            Held::Many(segments) => segments.as_slice(),
        }
    }
}

/// Two segments, with room for more: a list that is lent to one path after another doesn't grow step by step.
fn both(alloc: Global, first: Seg, second: Seg) -> Result<Vec<Seg>, NoMemory>
    ensures { IfOk result (λ segments. segments.items ≡ first ∷ second ∷ []) }
{
    let mut segments = Vec::with_capacity(alloc, FIRST_ROOM)?;
    segments.push_reserved(first);
    segments.push_reserved(second);
    Ok(segments)
}
