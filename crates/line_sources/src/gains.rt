//! How much more power a piece has than a metre of its line.
ghost use Rattle.std.specs.Prelude.{◌≡◌, ◌*◌, ◌^◌, ◌≤◌, pos, neg_ℤ, ◌*ℤ◌, ◌≤ℤ◌};
ghost use Rattle.fix_interval.specs.Units.{unit};
ghost use Rattle.fix_interval.specs.Round.{floor_of};
ghost use Rattle.fix_interval.specs.Tree.{enc};
ghost use Rattle.line_sources.specs.Gains.{gain_of, piece_length as piece_length_of};
ghost use Rattle.line_sources.specs.Tiles.{IsGain};

use enclose_log::lg;
use fix_interval::{Iv, ratio, root};

/// What each of `count` equal pieces of a leg has more than a metre of it, in 0.01 dB. The squared length of the leg is
/// `square` mm², and a piece is from a millimetre to a kilometre long.
pub(crate) fn gain(square: u64, count: u32) -> i32
    requires some { 1 ≤ count }
    requires least { count * count ≤ square }
    requires most { square ≤ 1000000000000 * (count * count) }
    ensures value { result ≡ gain_of square count }
    ensures tile { IsGain square count result }
    ensures low { neg_ℤ (pos 3001) ≤ℤ result }
    ensures high { result ≤ℤ pos 3000 }
{
    let length = piece_length(square, count);
    match lg(length).low() {
        Some(low) => in_hundredths(low),
        None => 0,
    }
}

/// A thousand times a number of units of 2^-32, rounded down to a whole number.
fn in_hundredths(units: i128) -> i32
    requires low { neg_ℤ (pos (10 * 2 ^ 32)) ≤ℤ units }
    requires high { units ≤ℤ pos (29 * 2 ^ 32) }
    ensures { result ≡ floor_of (pos 1000 *ℤ units) unit }
{
    (1000 * units).div_euclid(1 << 32) as i32
}

/// The length of a piece, in m.
fn piece_length(square: u64, count: u32) -> Iv
    requires { 1 ≤ count }
    ensures { result ≡ enc (piece_length_of square count) }
{
    root(ratio(
        i128::from(square),
        1_000_000 * i128::from(count) * i128::from(count),
    ))
}
