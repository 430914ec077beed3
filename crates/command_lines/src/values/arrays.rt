//! Arrays of JSON.
ghost use Rattle.std.specs.Prelude.{◌≡◌, option_map};
ghost use Rattle.serde_json.specs.Find.{as_array};
ghost use Rattle.serde_json.specs.View.{view, items_view};

use serde_json::Value;

/// The items of an array.
pub fn items_in(value: &Value) -> Option<&[Value]>
    ensures { option_map (λ items. items_view items.now) result ≡ as_array (view value.now) }
{
    Some(value.as_array()?.as_slice())
}
