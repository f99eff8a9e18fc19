//! `is_in_range`: whether `serde_json` would read all numbers of a tree.

ghost use Rattle.std.specs.Prelude.{◌≡◌, is_some};
ghost use Rattle.json.specs.Value.{value_view};
ghost use Rattle.serde_json.specs.Read.{of_json};

use crate::json_value::numbers;
use json::Value;

/// Whether all numbers of a value are in range.
pub(crate) fn is_in_range(value: &Value<'_>) -> bool
    ensures { result ≡ is_some (of_json (value_view value.now)) }
{
    match value {
        Value::Number(text) => numbers::is_in_range(text),
        Value::Array(items) => {
            for item in items {
                if !is_in_range(item) {
                    return false;
                }
            }
            true
        }
        Value::Object(members) => {
            for member in members {
                if !is_in_range(&member.1) {
                    return false;
                }
            }
            true
        }
        Value::Null | Value::Bool(_) | Value::String(_) => true,
    }
}
