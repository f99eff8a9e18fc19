//! `JsonTree` for the values of `json`. A number out of range counts as null; no `ParsedJson` has one.

use crate::json_value::keys::are_among;
use crate::json_value::numbers;
use crate::json_value::tree::JsonTree;
use json::Value;

impl<'a> JsonTree for Value<'a> {
    ghost use Rattle.json.specs.Value.{value_view};
    ghost use Rattle.etcs_schema.specs.json_value.Texts.{json_data};

    ghost value = { λ v. json_data (value_view v) };

    fn number(&self) -> Option<u64> {
        numbers::whole_number(self.as_number()?)
    }

    fn text(&self) -> Option<&str> {
        self.as_str()
    }

    fn member(&self, name: &str) -> Option<&Value<'a>> {
        self.get(name)
    }

    fn has_only(&self, keys: &[&str]) -> Option<bool> {
        match self {
            Value::Object(members) => Some(are_among(members, keys)),
            _ => None,
        }
    }

    fn items(&self) -> Option<&[Value<'a>]> {
        match self {
            Value::Array(items) => Some(items.as_slice()),
            _ => None,
        }
    }
}
