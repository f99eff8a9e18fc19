//! The trait `JsonTree`: JSON values that own their items and members. A reference to one is a `JsonValue`. A function
//! that reads a tree with borrowed texts takes `&T` with `T: JsonTree`: Rattle's borrow checker does not accept a
//! reference to such a tree, which has two lifetimes, in place of a `JsonValue`.

ghost use Rattle.std.specs.Prelude.{◌≡◌, map, option_map, option_and_then};
ghost use Rattle.serde_json.specs.Data.{Data};
ghost use Rattle.serde_json.specs.Find.{as_array, as_number, as_object, as_str, as_u64, get};
ghost use Rattle.etcs_schema.specs.Entries.{are_known};
ghost use Rattle.etcs_schema.specs.Reading.{data_list};

use crate::json_value::JsonValue;

/// A JSON value that owns its items and members. The functions are those of [`JsonValue`].
pub trait JsonTree {
    /// The value, as `serde_json` has it.
    ghost value: { Self → Data };

    /// The number. `None` as in [`JsonValue`].
    fn number(&self) -> Option<u64>
        ensures { result ≡ option_and_then as_u64 (as_number (value self.now)) };

    /// The text of a string. `None` as in [`JsonValue`].
    fn text(&self) -> Option<&str>
        ensures { option_map (λ s. s.now) result ≡ as_str (value self.now) };

    /// The member of an object at a key, the last one if the key comes twice. `None` as in [`JsonValue`].
    fn member(&self, name: &str) -> Option<&Self>
        ensures { option_map (λ v. value v.now) result ≡ get name.now (value self.now) };

    /// Whether each key of an object is one of these. `None` as in [`JsonValue`].
    fn has_only(&self, keys: &[&str]) -> Option<bool>
        ensures { result ≡ option_map (are_known (map (λ l. l.now) keys.now))
            (as_object (value self.now)) };

    /// The items of a list. `None` as in [`JsonValue`].
    fn items(&self) -> Option<&[Self]>
        ensures { option_map (λ vs. map value vs.now) result
            ≡ option_map data_list (as_array (value self.now)) };
}

impl<'v, T: JsonTree> JsonValue for &'v T {
    ghost use Rattle.std.specs.Prelude.{map};

    type Items = &'v [T];

    ghost value = { λ v. T.value v.now };

    ghost rest = { λ vs. map T.value vs.now };

    fn number(&self) -> Option<u64> {
        T::number(*self)
    }

    fn text(&self) -> Option<&str> {
        T::text(*self)
    }

    fn member(&self, name: &str) -> Option<&'v T> {
        T::member(*self, name)
    }

    fn has_only(&self, keys: &[&str]) -> Option<bool> {
        T::has_only(*self, keys)
    }

    fn items(&self) -> Option<&'v [T]> {
        T::items(*self)
    }

    fn next_item(items: &mut &'v [T]) -> Option<&'v T> {
        let (first, more) = items.split_first()?;
        *items = more;
        Some(first)
    }
}
