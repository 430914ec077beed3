//! Arrays of sound power levels.
ghost use Rattle.std.specs.Prelude.{◌≡◌, ◌∷◌, []};
ghost use Rattle.serde_json.specs.View.{view, items_view};
ghost use Rattle.command_lines.specs.Values.{all_of, power_of, powers_of};

use crate::values::arrays::items_in;
use serde_json::Value;

/// The eight levels of an array of exactly so many, each a whole number or null.
#[tactic(auto, unfolding(crate::specs::Values::powers_of))]
pub fn powers_in(value: &Value) -> Option<[Option<i64>; 8]>
    ensures { result ≡ powers_of (view value.now) }
{
    let [
        at_63,
        at_125,
        at_250,
        at_500,
        at_1000,
        at_2000,
        at_4000,
        at_8000,
    ] = items_in(value)?
    else {
        return None;
    };
    eight_powers(
        at_63, at_125, at_250, at_500, at_1000, at_2000, at_4000, at_8000,
    )
}

fn eight_powers(
    at_63: &Value,
    at_125: &Value,
    at_250: &Value,
    at_500: &Value,
    at_1000: &Value,
    at_2000: &Value,
    at_4000: &Value,
    at_8000: &Value,
) -> Option<[Option<i64>; 8]>
    ensures { result ≡ all_of power_of
        (items_view
        (at_63.now ∷ at_125.now ∷ at_250.now ∷ at_500.now
        ∷ at_1000.now ∷ at_2000.now ∷ at_4000.now ∷ at_8000.now ∷ [])) }
{
    Some([
        power_in(at_63)?,
        power_in(at_125)?,
        power_in(at_250)?,
        power_in(at_500)?,
        power_in(at_1000)?,
        power_in(at_2000)?,
        power_in(at_4000)?,
        power_in(at_8000)?,
    ])
}

#[tactic(auto, unfolding(crate::specs::Values::power_of))]
fn power_in(value: &Value) -> Option<Option<i64>>
    ensures { result ≡ power_of (view value.now) }
{
    if value.is_null() {
        return Some(None);
    }
    Some(Some(value.as_i64()?))
}
