//! The balise groups of a document, each with its aspects, and its messages.

ghost use Rattle.std.specs.Prelude.{◌∷◌, [], map};
ghost use Rattle.etcs_document.specs.Document.{document_group, document_message, listed_aspects};
ghost use Rattle.etcs_document.specs.DocumentFault.{Gives};

use crate::document_aspects::read_aspect;
use crate::document_values::{FromValue, only_values};
use crate::line_error::{LineError, in_group};
use etcs_group::{Controlled, Group};
use etcs_radio::{Message, RadioTextError, from_hex};
use etcs_schema::{FormError, JsonValue, Step};
use std::alloc::Global;

// Reads the aspects of the group at this index, one after the other.
#[tactic(auto, unfolding(crate::specs::Document::listed_aspects))]
fn read_aspects<N: JsonValue>(
    alloc: Global,
    group: usize,
    values: &[N],
) -> Result<Controlled, LineError>
    ensures { Gives (λ c. c) result (listed_aspects group (map N.value values.now)) }
{
    let [first, others @ ..] = values else {
        return Err(LineError::Aspects(group));
    };
    let first = read_aspect(alloc, group, Some(0), None, first)?;
    let count = first.telegrams().len();
    let mut aspects = vec![in alloc; first]?;
    'aspects: for (index, value) in others.iter().enumerate() {
        aspects.push(read_aspect(alloc, group, Some(index + 1), Some(count), value)?)?;
    }
    Ok(Controlled::new(aspects).unwrap())
}

/// The controlled group with this one aspect.
#[inline]
pub(crate) fn as_only_aspect(alloc: Global, group: Group) -> Result<Controlled, LineError>
    ensures { Gives (λ c. c) result (Ok (group ∷ [])) }
{
    Ok(Controlled::new(vec![in alloc; group]?).unwrap())
}

// A group has aspects if it has the key `aspects`, and balises otherwise.
#[tactic(auto, unfolding(crate::specs::Document::document_group, crate::specs::Document::controlled_group, crate::specs::Document::only_aspect))]
impl FromValue for Controlled {
    ghost reading = { document_group };

    fn from_value<N: JsonValue>(
        alloc: Global,
        place: usize,
        value: &N,
    ) -> Result<Controlled, LineError> {
        if value.member("aspects").is_none() {
            let group = read_aspect(alloc, place, None, None, value)?;
            return as_only_aspect(alloc, group);
        }
        match only_values(alloc, value, "aspects") {
            Ok(aspects) => read_aspects(alloc, place, &aspects),
            Err(error) => Err(LineError::from(in_group(error, place, None))),
        }
    }
}

// A message is the text of a radio message.
#[tactic(auto, unfolding(crate::specs::Document::document_message))]
impl FromValue for Message {
    ghost reading = { document_message };

    fn from_value<N: JsonValue>(
        alloc: Global,
        place: usize,
        value: &N,
    ) -> Result<Message, LineError> {
        let Some(text) = value.text() else {
            let error = FormError::kind(alloc).under(Step::Place(place));
            return Err(LineError::from(error.under(Step::Key("messages"))));
        };
        match from_hex(alloc, text.as_bytes()) {
            Ok(message) => Ok(message),
            Err(RadioTextError::Memory) => Err(LineError::Memory),
            Err(why) => Err(LineError::Message(place, why)),
        }
    }
}
