//! The string as it is wound from the receiver back, point by point, in one buffer.
ghost use Rattle.std.specs.Prelude.{◌≡◌, ◌≤◌, ◌<◌, length, drop};
ghost use Rattle.edge_chain.specs.inner.Winding.{slackened, wound};

use crate::hand::Hand;
use scene_geom::Pt;

/// Winds a string round points from the last of them to the first. It stands at the end of the buffer, and what is
/// returned is where it begins.
pub fn wind(points: &mut [Pt], hand: Hand) -> usize
    ensures value { drop result points.new ≡ wound hand points.old }
    ensures within { result ≤ length points.new }
    ensures length { length points.new ≡ length points.old }
{
    let mut begin = points.len();
    for i in (0..points.len()).rev() {
        let point = points[i];
        begin = tight_from(points, begin, point, hand) - 1;
        points[begin] = point;
    }
    begin
}

/// From where on a string that begins at `from` stays tight when it is led to another point.
fn tight_from(string: &[Pt], from: usize, point: Pt, hand: Hand) -> usize
    requires { from ≤ length string.now }
    ensures value { drop result string.now ≡ slackened hand point (drop from string.now) }
    ensures after { from ≤ result }
    ensures within { result ≤ length string.now }
{
    let mut at = from;
    while at + 1 < string.len() && hand.off_line(point, string[at], string[at + 1]) >= 0 {
        at += 1;
    }
    at
}
