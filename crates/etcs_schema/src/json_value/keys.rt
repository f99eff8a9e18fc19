//! `check_keys` and its helpers: which keys an object may have.

ghost use Rattle.std.specs.Prelude.{◌≡◌, map};
ghost use Rattle.std.specs.List.{list_all, list_any};
ghost use Rattle.std.specs.Str.{bytes_eq};
ghost use Rattle.serde_json.specs.View.{members_view};
ghost use Rattle.etcs_schema.specs.Entries.{are_known, is_known};
ghost use Rattle.etcs_schema.specs.Fault.{Returns, IfMemory};
ghost use Rattle.etcs_schema.specs.Reading.{only_keys};

use crate::{FormError, JsonValue};
use serde_json::{Map, Value};
use std::alloc::Global;

// Whether a key is one of these.
fn is_one_of(name: &str, keys: &[&str]) -> bool
    ensures { result ≡ list_any (λ l. bytes_eq name.now l.now) keys.now }
{
    keys.iter().any(|key| name == *key)
}

/// Whether a key is one of these.
pub(crate) fn is_key(name: &str, keys: &[&str]) -> bool
    ensures { result ≡ is_known name.now (map (λ l. l.now) keys.now) }
{
    is_one_of(name, keys)
}

/// Whether each key of an object is one of these.
pub(crate) fn all_among(members: &Map<String, Value>, keys: &[&str]) -> bool
    ensures { result ≡ are_known (map (λ l. l.now) keys.now) (members_view members.now.entries) }
{
    for name in members.keys() {
        if !is_key(name.as_str(), keys) {
            return false;
        }
    }
    true
}

/// Whether each key of these members is one of these keys.
pub(crate) fn are_among(members: &[(&str, json::Value<'_>)], keys: &[&str]) -> bool
    ensures { result ≡ list_all (λ m. is_known m.0.now (map (λ l. l.now) keys.now)) members.now }
{
    members.iter().all(|member| is_key(member.0, keys))
}

/// Refuses a value that is not an object (`Kind`), and an object with a key that is none of these (`Unknown`).
/// Refusing allocates nothing.
pub fn check_keys<N: JsonValue>(alloc: Global, node: &N, keys: &[&str]) -> Result<(), FormError>
    ensures keys { Returns (λ u. u) result (only_keys (map (λ l. l.now) keys.now) (N.value node.now)) }
    ensures memory { IfMemory result ⊥ }
{
    match node.has_only(keys) {
        None => Err(FormError::kind(alloc)),
        Some(known) => {
            if known {
                Ok(())
            } else {
                Err(FormError::unknown(alloc))
            }
        }
    }
}
