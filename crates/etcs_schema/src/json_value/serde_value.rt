//! `JsonTree` for the values of `serde_json`.

use crate::json_value::keys::all_among;
use crate::json_value::tree::JsonTree;
use serde_json::Value;

impl JsonTree for Value {
    ghost use Rattle.serde_json.specs.View.{view};

    ghost value = { view };

    fn number(&self) -> Option<u64> {
        self.as_u64()
    }

    fn text(&self) -> Option<&str> {
        self.as_str()
    }

    fn member(&self, name: &str) -> Option<&Value> {
        self.get(name)
    }

    fn has_only(&self, keys: &[&str]) -> Option<bool> {
        Some(all_among(self.as_object()?, keys))
    }

    #[tactic(auto, using(crate::proofs::AnyList::data_items))]
    fn items(&self) -> Option<&[Value]> {
        Some(self.as_array()?.as_slice())
    }
}
