//! Into how many pieces a leg is cut.
ghost use Rattle.std.specs.Prelude.{◌≡◌, ℕ, ◌*◌, ◌≤◌, ◌<◌, ◌-◌};
ghost use Rattle.line_sources.specs.Legs.{count_of};

/// The least number of pieces of a leg, from 1 on, that aren't longer than `piece` mm. The squared length of the leg is
/// `square` mm².
pub(crate) fn count(square: u64, piece: u32) -> u32
    requires some { 1 ≤ square }
    requires within { square ≤ 128000000000000 }
    requires least { 1000 ≤ piece }
    ensures value { result ≡ count_of square piece }
    ensures some { 1 ≤ result }
    ensures few { result ≤ 11314 }
{
    root_up(square).div_ceil(piece)
}

/// The square root, rounded up.
fn root_up(square: u64) -> u32
    requires { square ≤ 128000000000000 }
    ensures above { square ≤ result * result }
    ensures next { 1 ≤ square → (result - 1) * (result - 1) < square }
    ensures some { 1 ≤ square → 1 ≤ result }
    ensures few { result ≤ 11313709 }
{
    let root = square.isqrt();
    let up = if root * root < square { root + 1 } else { root };
    up as u32
}
