//! Functions that read the parts of a form, such as `read_list`, and the trait `AllowedNumbers`: which numbers a
//! variable may have.

ghost use Rattle.std.specs.Prelude.{◌≡◌, ℕ, Bool, true, IfOk, IsErr, IsOk};
ghost use Rattle.etcs_schema.specs.Choices.{any_object, tag_member};
ghost use Rattle.etcs_schema.specs.Fault.{Returns, IfMemory};
ghost use Rattle.etcs_schema.specs.Lists.{IsBoundedList};
ghost use Rattle.etcs_schema.specs.Reading.{required_member, indexed_items, bounded_list, allowed_number};
ghost use Rattle.etcs_schema.specs.Codec.{first_and_others};

use crate::Form;
use crate::members::ReadMembers;
use etcs_schema::reading::{check_object, member, under};
use etcs_schema::{FormError, JsonValue, Step};
use std::alloc::Global;

/// Reads the member that decides the form of an object, whatever other keys the object has. Refusing a value
/// that is not an object allocates nothing.
pub(crate) fn read_first<T: Form, N: JsonValue>(
    alloc: Global,
    node: &N,
    name: &'static str,
) -> Result<T, FormError>
    ensures first { Returns (λ x. x) result (tag_member T.codec.of name.now (N.value node.now)) }
    ensures memory { IfMemory result (IsOk (any_object (N.value node.now))) }
{
    check_object(alloc, node)?;
    T::read(alloc, node, name)
}

/// Reads the remaining items of a list.
pub(crate) fn read_items<T: Form, N: JsonValue>(
    alloc: Global,
    items: N::Items,
) -> Result<Vec<T>, FormError>
    ensures { Returns (λ v. v.items) result (indexed_items T.codec.of 0 (N.rest items)) }
{
    let mut items = items;
    let mut found = Vec::new(alloc);
    'items: while let Some(node) = N::next_item(&mut items) {
        match T::read_json(alloc, &node) {
            Ok(item) => {
                if found.push(item).is_err() {
                    return Err(FormError::Memory);
                }
            }
            Err(error) => return Err(error.under(Step::Place(found.len()))),
        }
    }
    Ok(found)
}

/// Reads a list of `low` to `high` items. The count is checked before the items, and refusing it allocates nothing.
pub(crate) fn read_list<T: Form, N: JsonValue>(
    alloc: Global,
    node: &N,
    low: usize,
    high: usize,
) -> Result<Vec<T>, FormError>
    ensures gives { Returns (λ v. v.items) result (bounded_list T.codec.of low high (N.value node.now)) }
    ensures memory { IfMemory result (IsBoundedList low high (N.value node.now)) }
{
    match node.has_between(low, high) {
        None => Err(FormError::kind(alloc)),
        Some(fits) => {
            if fits {
                match node.items() {
                    None => Err(FormError::kind(alloc)),
                    Some(items) => read_items::<T, N>(alloc, items),
                }
            } else {
                Err(FormError::range(alloc))
            }
        }
    }
}

/// Reads a list of 1 to `high` items, as the first and the others.
pub(crate) fn read_non_empty<T: Form, N: JsonValue>(
    alloc: Global,
    node: &N,
    high: usize,
) -> Result<(T, Vec<T>), FormError>
    ensures gives { Returns (λ p. (p.0, p.1.items)) result
        (first_and_others T.codec.of high (N.value node.now)) }
    ensures memory { IfMemory result (IsBoundedList 1 high (N.value node.now)) }
{
    let mut items = read_list(alloc, node, 1, high)?;
    if items.is_empty() {
        return Err(FormError::range(alloc));
    }
    let first = items.remove(0);
    Ok((first, items))
}

/// A type that allows some numbers of a variable.
pub(crate) trait AllowedNumbers {
    /// Whether a number is allowed.
    ghost test: { ℕ → Bool };

    /// The same, as code.
    fn has(number: u64) -> bool
        ensures { result ≡ test number };
}

// Reads an allowed number.
#[tactic(auto, unfolding(etcs_schema::specs::Reading::allowed_number))]
fn read_allowed<T: AllowedNumbers, N: JsonValue>(alloc: Global, node: &N) -> Result<u64, FormError>
    ensures gives { Returns (λ n. n) result (allowed_number T.test (N.value node.now)) }
    ensures memory { IfMemory result ⊥ }
    ensures has { IfOk result (λ n. T.test n ≡ true) }
{
    match node.number() {
        None => Err(FormError::kind(alloc)),
        Some(number) if T::has(number) => Ok(number),
        Some(_) => Err(FormError::range(alloc)),
    }
}

/// Reads a required member that must be an allowed number.
#[tactic(auto, using(etcs_schema::proofs::Objects::member_read, etcs_schema::proofs::Objects::under_keeps))]
pub(crate) fn read_number<T: AllowedNumbers, N: JsonValue>(
    alloc: Global,
    node: &N,
    name: &'static str,
) -> Result<u64, FormError>
    ensures gives { Returns (λ n. n) result (required_member (allowed_number T.test) name.now (N.value node.now)) }
    ensures memory { IfMemory result (IsErr (required_member (allowed_number T.test) name.now (N.value node.now))) }
    ensures has { IfOk result (λ n. T.test n ≡ true) }
{
    let found = member(alloc, node, name)?;
    under(name, read_allowed::<T, N>(alloc, &found))
}
