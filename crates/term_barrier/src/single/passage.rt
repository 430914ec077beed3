//! How a path passes an edge.

ghost use Rattle.std.specs.Prelude.{◌≡◌, pos};
ghost use Rattle.fix_interval.specs.Tree.{Const, enc};
ghost use Rattle.term_barrier.specs.Edges.{FitsEdge};
ghost use Rattle.term_barrier.specs.Edges as form;
ghost use Rattle.term_barrier.specs.inner.Prepared.{passage_of, slant_of};

use crate::single::components::{across, beside, length_of};
use fix_interval::{Iv, hypotenuse, mul, ratio, sub};
use path_shape::Path;
use scene_parts::Edge;

/// An edge and how a path passes it, whatever other edge it passes. Lengths are in metres.
#[derive(Clone, Copy, Drop)]
pub(crate) struct EdgePassage {
    pub edge: Edge,
    /// The place on the path, as a fraction of its plan length, and what lies behind it.
    pub place: Iv,
    pub rest: Iv,
    /// The way in plan from the source to the edge, and from there to the receiver.
    pub before: Iv,
    pub behind: Iv,
    /// The height above ground, and by how much that is above the source and above the receiver.
    pub height: Iv,
    pub over_source: Iv,
    pub over_receiver: Iv,
    /// The component of the path in plan across the edge, and the square of that along it.
    pub x: Iv,
    pub y_square: Iv,
    /// From the source to the edge, across it.
    pub d_ss: Iv,
}

impl EdgePassage {
    /// How a path passes an edge.
    pub(crate) fn of(path: &Path, edge: &Edge) -> EdgePassage
        requires { FitsEdge edge.now }
        ensures { result ≡ passage_of path.now edge.now }
    {
        let place = place(edge);
        let before = mul(place, path.dp);
        let over_source = rise(edge.h, path.hs);
        let length = length_of(edge.side);
        let x = across(edge, length);
        let y = beside(edge, length);
        EdgePassage {
            edge: *edge,
            place,
            rest: rest(edge),
            before,
            behind: sub(path.dp, before),
            height: metres(edge.h),
            over_source,
            over_receiver: rise(edge.h, path.hr),
            x,
            y_square: mul(y, y),
            d_ss: slant(mul(place, x), over_source),
        }
    }
}

/// The part of a path before an edge.
#[tactic(auto, unfolding(crate::specs::Edges::place))]
fn place(edge: &Edge) -> Iv
    requires { FitsEdge edge.now }
    ensures { result ≡ enc (form.place edge.now) }
{
    ratio(edge.t.n, edge.t.d)
}

/// The part of a path behind an edge.
#[tactic(auto, unfolding(crate::specs::Edges::rest))]
fn rest(edge: &Edge) -> Iv
    requires { FitsEdge edge.now }
    ensures { result ≡ enc (form.rest edge.now) }
{
    ratio(edge.t.d - edge.t.n, edge.t.d)
}

/// By how much one height in mm is above another, in metres.
#[tactic(auto, unfolding(crate::specs::Edges::rise))]
fn rise(high: u32, low: u32) -> Iv
    ensures { result ≡ enc (form.rise high low) }
{
    sub(metres(high), metres(low))
}

/// A height in mm, in metres.
fn metres(height: u32) -> Iv
    ensures { result ≡ enc (Const (pos height) 1000) }
{
    ratio(height.into(), 1000)
}

/// The length of a way that is so long in plan and rises so much, in metres.
#[inline(always)]
pub(crate) fn slant(length: Iv, rise: Iv) -> Iv
    ensures { result ≡ slant_of length rise }
{
    hypotenuse(length, rise)
}
