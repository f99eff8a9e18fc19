//! Functions that find and read members of an object: `member`, `check_object`, `read_fixed` and `check_absent`.

ghost use Rattle.std.specs.Prelude.{◌≡◌, ◌==◌, None, IsErr, IsSome};
ghost use Rattle.serde_json.specs.Find.{get};
ghost use Rattle.etcs_schema.specs.Choices.{any_object};
ghost use Rattle.etcs_schema.specs.Fault.{Returns, IfMemory, IsPrefixedResult, key};
ghost use Rattle.etcs_schema.specs.Reading.{allowed_number, any_member, absent_member};
ghost use Rattle.etcs_schema.specs.Codec.{fixed};

use crate::error::{FormError, Step};
use crate::json_value::JsonValue;
use std::alloc::Global;

/// The member at a required key. The error is `Missing`, or `Memory` if its path does not fit in memory.
#[tactic(auto, using(crate::proofs::Objects::fails_as), unfolding(crate::specs::Reading::required_member))]
pub fn member<N: JsonValue>(alloc: Global, node: &N, name: &'static str) -> Result<N, FormError>
    ensures gives { Returns N.value result (any_member name.now (N.value node.now)) }
    ensures memory { IfMemory result (get name.now (N.value node.now) ≡ None) }
{
    match node.member(name) {
        None => Err(FormError::missing(alloc, name)),
        Some(found) => Ok(found),
    }
}

/// The result of reading the member at a key. A fault gets the step to it, or is `Memory` if its path does not fit.
pub fn under<X>(name: &'static str, read: Result<X, FormError>) -> Result<X, FormError>
    ensures { IsPrefixedResult (key name.now) read result }
{
    match read {
        Ok(found) => Ok(found),
        Err(error) => Err(error.under(Step::Key(name))),
    }
}

/// Refuses a value that is not an object (`Kind`). Refusing allocates nothing.
#[tactic(auto, using(crate::proofs::Objects::fails_as, crate::proofs::Objects::some_object), unfolding(crate::specs::Choices::any_object))]
pub fn check_object<N: JsonValue>(alloc: Global, node: &N) -> Result<(), FormError>
    ensures object { Returns (λ u. u) result (any_object (N.value node.now)) }
    ensures memory { IfMemory result ⊥ }
{
    match node.has_only(&[]) {
        None => Err(FormError::kind(alloc)),
        Some(_) => Ok(()),
    }
}

// Refuses any value but this number.
#[tactic(auto, unfolding(crate::specs::Reading::allowed_number))]
fn check_number<N: JsonValue>(alloc: Global, node: &N, number: u64) -> Result<(), FormError>
    ensures gives { Returns (λ _. number) result (allowed_number (λ n. n == number) (N.value node.now)) }
    ensures memory { IfMemory result ⊥ }
{
    match node.number() {
        None => Err(FormError::kind(alloc)),
        Some(found) if found == number => Ok(()),
        Some(_) => Err(FormError::range(alloc)),
    }
}

/// Reads a required member that must have this number. The error is `Missing`, `Kind` or `Range` at it, or `Memory`.
pub fn read_fixed<N: JsonValue>(
    alloc: Global,
    node: &N,
    name: &'static str,
    number: u64,
) -> Result<(), FormError>
    ensures gives { Returns (λ u. u) result ((fixed name.now number).of (N.value node.now)) }
    ensures memory { IfMemory result (IsErr ((fixed name.now number).of (N.value node.now))) }
{
    let found = member(alloc, node, name)?;
    under(name, check_number(alloc, &found, number))
}

/// Refuses an object that has this key. The error is `Range` at it, or `Memory` if its path does not fit in memory.
#[tactic(auto, using(crate::proofs::Objects::fails_as), unfolding(crate::specs::Reading::absent_member))]
pub fn check_absent<N: JsonValue>(
    alloc: Global,
    node: &N,
    name: &'static str,
) -> Result<(), FormError>
    ensures gives { Returns (λ u. u) result (absent_member name.now (N.value node.now)) }
    ensures memory { IfMemory result (IsSome (get name.now (N.value node.now))) }
{
    match node.member(name) {
        None => Ok(()),
        Some(_) => Err(FormError::range_at(alloc, name)),
    }
}
