//! The lists of a document: `only_values` finds their JSON values, and `read_list` reads those of the document.

ghost use Rattle.std.specs.Prelude.{ℕ, Result, map};
ghost use Rattle.serde_json.specs.Data.{Data};
ghost use Rattle.etcs_document.specs.Document.{◌then◌, as_values, document_list, only_values, read_indexed};
ghost use Rattle.etcs_document.specs.DocumentFault.{DocumentFault, Gives};
ghost use Rattle.etcs_document.specs.Taken.{ReadsEach};
ghost use Rattle.etcs_schema.specs.Fault.{Returns};
ghost use Rattle.etcs_schema.specs.Reading.{required_member};

use crate::line_error::LineError;
use crate::sink::Sink;
use etcs_schema::{FormError, JsonValue, Step, check_keys};
use std::alloc::Global;

// The items of the list at a required key.
#[tactic(auto, using(etcs_schema::proofs::Objects::fails_as, etcs_schema::proofs::Objects::fails_under), unfolding(etcs_schema::specs::Reading::required_member, crate::specs::Document::as_values))]
fn items_at<N: JsonValue>(
    alloc: Global,
    value: &N,
    name: &'static str,
) -> Result<N::Items, FormError>
    ensures { Returns N.rest result (required_member as_values name.now (N.value value.now)) }
{
    match value.member(name) {
        None => Err(FormError::missing(alloc, name)),
        Some(found) => match found.items() {
            None => Err(FormError::kind(alloc).under(Step::Key(name))),
            Some(items) => Ok(items),
        },
    }
}

/// The values in the list at this key of an object without other keys.
#[tactic(auto, unfolding(crate::specs::Document::only_values))]
pub(crate) fn only_values<N: JsonValue>(
    alloc: Global,
    value: &N,
    name: &'static str,
) -> Result<Vec<N>, FormError>
    ensures { Returns (λ vs. map N.value vs.items) result (only_values name.now (N.value value.now)) }
{
    check_keys(alloc, value, &[name])?;
    let mut items = items_at(alloc, value, name)?;
    let mut values = Vec::new(alloc);
    'items: while let Some(item) = N::next_item(&mut items) {
        if values.push(item).is_err() {
            return Err(FormError::Memory);
        }
    }
    Ok(values)
}

/// A group or a message, which is read from a JSON value.
pub(crate) trait FromValue: Drop {
    /// The result of reading the value with this index.
    ghost reading: { ℕ → Data → Result Self DocumentFault };

    /// Reads the value with this index.
    fn from_value<N: JsonValue>(alloc: Global, place: usize, value: &N) -> Result<Self, LineError>
        ensures { Gives (λ x. x) result (reading place (N.value value.now)) };
}

/// Reads the values in the list at a required key of the document, and passes what they denote to the sink.
#[tactic(auto, unfolding(crate::specs::Document::as_values))]
pub(crate) fn read_list<T: FromValue, N: JsonValue, K: Sink<T>>(
    alloc: Global,
    document: &N,
    name: &'static str,
    sink: &mut K,
) -> Result<(), LineError>
    ensures { ReadsEach K.takes result
        (document_list name.now (N.value document.now) then read_indexed T.reading 0) sink.old sink.new }
{
    let mut items = items_at(alloc, document, name)?;
    'items: for place in 0..usize::MAX {
        let Some(value) = N::next_item(&mut items) else {
            return Ok(());
        };
        sink.take(alloc, T::from_value(alloc, place, &value)?)?;
    }
    Err(LineError::Memory)
}
