//! The trait `JsonValue`: read-only JSON values. Readers of forms are generic over it, so that one reader serves
//! references to all trees: values of `serde_json`, and values of `json`, which take less memory. `reading` and
//! `keys` contain what all these readers share.

ghost use Rattle.std.specs.Prelude.{◌≡◌, ◌∷◌, [], List, map, option_map, option_and_then, MatchOption};
ghost use Rattle.serde_json.specs.Data.{Data};
ghost use Rattle.serde_json.specs.Find.{as_array, as_number, as_object, as_str, as_u64, get};
ghost use Rattle.etcs_schema.specs.Entries.{are_known};
ghost use Rattle.etcs_schema.specs.Reading.{has_bounded_length, data_list};

pub(crate) mod keys;
mod numbers;
pub(crate) mod parsed_json;
mod serde_value;
pub(crate) mod tree;
mod tree_range;
mod tree_value;

/// A read-only JSON value.
pub trait JsonValue: Drop {
    /// The remaining items of a list.
    type Items: Drop;

    /// The value, as `serde_json` has it.
    ghost value: { Self → Data };

    /// The remaining items.
    ghost rest: { Self.Items → List Data };

    /// The number. `None` if the value is not a number, and for a number that has a sign, a point or an
    /// exponent or exceeds 64 bits.
    fn number(&self) -> Option<u64>
        ensures { result ≡ option_and_then as_u64 (as_number (value self.now)) };

    /// The text of a string. `None` if the value is not a string.
    fn text(&self) -> Option<&str>
        ensures { option_map (λ s. s.now) result ≡ as_str (value self.now) };

    /// The member of an object at a key, the last one if the key comes twice. `None` if there is no such
    /// member, and if the value is not an object.
    fn member(&self, name: &str) -> Option<Self>
        ensures { option_map value result ≡ get name.now (value self.now) };

    /// Whether each key of an object is one of these. `None` if the value is not an object.
    fn has_only(&self, keys: &[&str]) -> Option<bool>
        ensures { result ≡ option_map (are_known (map (λ l. l.now) keys.now))
            (as_object (value self.now)) };

    /// The items of a list, from the first one on. `None` if the value is not a list.
    fn items(&self) -> Option<Self::Items>
        ensures { option_map rest result ≡ option_map data_list (as_array (value self.now)) };

    /// Takes the next item. `None` after the last one.
    fn next_item(items: &mut Self::Items) -> Option<Self>
        ensures { MatchOption result ((rest items.old ≡ []) × (rest items.new ≡ []))
            (λ n. rest items.old ≡ value n ∷ rest items.new) };

    /// Whether a list has `low` to `high` items. `None` if the value is not a list.
    fn has_between(&self, low: usize, high: usize) -> Option<bool>
        ensures { result ≡ option_map (λ ds. has_bounded_length low high (data_list ds))
            (as_array (value self.now)) }
    {
        match self.items() {
            None => None,
            Some(found) => {
                let mut items = found;
                let mut count: usize = 0;
                'items: while let Some(_) = Self::next_item(&mut items) {
                    if count == high {
                        return Some(false);
                    }
                    count += 1;
                }
                Some(low <= count)
            }
        }
    }
}
