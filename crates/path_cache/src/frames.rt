//! A box round the sources of a scene, by which it is known at once that all are within reach of a receiver.
ghost use Rattle.std.specs.Prelude.{◌≡◌, ◌≤◌, ◌≤ℤ◌, ◌-ℤ◌, ◌⊎◌, ℤ, unsigned_abs};
ghost use Rattle.scene_geom.specs.Plan.{InPlan};

use path_calc::within;
use scene_geom::Pt;
use scene_parts::PointSource;

/// A box in plan round the places of some sources: its corners with the least and with the greatest coordinates, in mm.
#[derive(Clone, Copy, Drop)]
pub struct Frame {
    pub(crate) low: Pt,
    pub(crate) high: Pt,
    pub(crate) ghost x_ordered: { low.x ≤ℤ high.x },
    pub(crate) ghost y_ordered: { low.y ≤ℤ high.y },
}

impl Frame {
    ghost use Rattle.std.specs.Prelude.{◌≡◌, ◌<◌, true, List, All, length};
    ghost use Rattle.scene_geom.specs.declared.plan.Pt.{Pt as PtSeen};
    ghost use Rattle.scene_parts.specs.Parts.{Source};
    ghost use Rattle.path_calc.specs.Lengths as lengths;
    ghost use Rattle.path_cache.specs.declared.frames.Frame.{Frame as FrameSeen};
    ghost use Rattle.path_cache.specs.Frames.{IsIn, Holds, LiesIn, IsTheOrigin};

    /// The least box that holds these sources. Where there is none, it is the origin alone.
    pub fn of(sources: &[PointSource]) -> Frame
        ensures holds { Holds result sources.now }
        ensures tight { (other : FrameSeen) → 0 < length sources.now → Holds other sources.now
            → LiesIn result other }
        ensures origin { length sources.now ≡ 0 → IsTheOrigin result }
    {
        if sources.is_empty() {
            return Frame::of_one(Pt::new(0, 0));
        }
        let first = &sources[0];
        let mut frame = Frame::of_one(first.at);
        for source in sources {
            frame = frame.with(source.at);
        }
        frame
    }

    /// The box of one place.
    fn of_one(at: Pt) -> Frame
        ensures low { result.low ≡ at }
        ensures high { result.high ≡ at }
    {
        Frame { low: at, high: at }
    }

    /// The box with a place more.
    fn with(self, at: Pt) -> Frame
        ensures here { IsIn result at }
        ensures others { LiesIn self result }
        ensures tight { (other : FrameSeen) → LiesIn self other → IsIn other at
            → LiesIn result other }
    {
        Frame {
            low: Pt {
                x: lesser(self.low.x, at.x),
                y: lesser(self.low.y, at.y),
            },
            high: Pt {
                x: greater(self.high.x, at.x),
                y: greater(self.high.y, at.y),
            },
        }
    }

    /// Whether each place of the box is within reach of a receiver at a place: its farthest corner isn't farther in plan
    /// than this many mm. So surely each source in the box is, too.
    pub fn is_within(&self, reach: u32, at: Pt) -> bool
        ensures sources { result ≡ true → (sources : List Source) → Holds self.now sources
            → All (λ s. lengths.is_within reach s.at at ≡ true) sources }
        ensures all { result ≡ true → (place : PtSeen) → IsIn self.now place
            → lengths.is_within reach place at ≡ true }
        ensures only { ((place : PtSeen) → IsIn self.now place
            → lengths.is_within reach place at ≡ true) → result ≡ true }
    {
        let corner = Pt {
            x: farther(self.low.x, self.high.x, at.x),
            y: farther(self.low.y, self.high.y, at.y),
        };
        within(reach, corner, at)
    }
}

/// The lesser of two coordinates.
fn lesser(a: i32, b: i32) -> i32
    requires a { InPlan a }
    requires b { InPlan b }
    ensures plan { InPlan result }
    ensures first { result ≤ℤ a }
    ensures second { result ≤ℤ b }
    ensures greatest { (z : ℤ) → z ≤ℤ a → z ≤ℤ b → z ≤ℤ result }
{
    if a <= b { a } else { b }
}

/// The greater of two coordinates.
fn greater(a: i32, b: i32) -> i32
    requires a { InPlan a }
    requires b { InPlan b }
    ensures plan { InPlan result }
    ensures first { a ≤ℤ result }
    ensures second { b ≤ℤ result }
    ensures least { (z : ℤ) → a ≤ℤ z → b ≤ℤ z → result ≤ℤ z }
{
    if a <= b { b } else { a }
}

/// That of the ends of a range of coordinates which is farther from a coordinate. So no other of the range is farther.
fn farther(low: i32, high: i32, from: i32) -> i32
    requires low { InPlan low }
    requires high { InPlan high }
    requires from { InPlan from }
    ensures plan { InPlan result }
    ensures end { (result ≡ low) ⊎ (result ≡ high) }
    ensures farthest { (z : ℤ) → low ≤ℤ z → z ≤ℤ high
        → unsigned_abs (from -ℤ z) ≤ unsigned_abs (from -ℤ result) }
{
    if from.abs_diff(low) >= from.abs_diff(high) {
        low
    } else {
        high
    }
}
