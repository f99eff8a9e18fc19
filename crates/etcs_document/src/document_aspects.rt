//! `read_aspect`: an aspect of a group in a document, with its balises.

ghost use Rattle.std.specs.Prelude.{map};
ghost use Rattle.etcs_document.specs.Document.{aspect_telegrams, balise_telegram, group_aspect};
ghost use Rattle.etcs_document.specs.DocumentFault.{Gives};

use crate::document_values::only_values;
use crate::line_error::{LineError, in_group};
use etcs_group::Group;
use etcs_schema::{FormError, JsonValue, Step};
use etcs_telegram::{Telegram, TextError, from_hex};
use std::alloc::Global;

// Reads a balise of the group, or of an aspect of the group: the text of a telegram.
#[tactic(auto, unfolding(crate::specs::Document::balise_telegram))]
fn read_telegram<N: JsonValue>(
    alloc: Global,
    group: usize,
    aspect: Option<usize>,
    place: usize,
    value: &N,
) -> Result<Telegram, LineError>
    ensures { Gives (λ t. t) result (balise_telegram group aspect place (N.value value.now)) }
{
    let Some(text) = value.text() else {
        let error = FormError::kind(alloc).under(Step::Place(place));
        let error = error.under(Step::Key("balises"));
        return Err(LineError::from(in_group(error, group, aspect)));
    };
    match (from_hex(alloc, text.as_bytes()), aspect) {
        (Ok(telegram), _) => Ok(telegram),
        (Err(TextError::Memory), _) => Err(LineError::Memory),
        (Err(why), None) => Err(LineError::Telegram(group, place, why)),
        (Err(why), Some(aspect)) => Err(LineError::AspectTelegram(group, aspect, place, why)),
    }
}

// Reads the balises of the group, or of an aspect of the group. Their number is checked first: it is one to
// eight, and in a later aspect it is `first`, the number in the first aspect. The lists of packets are shrunk to
// fit, because all are kept.
#[tactic(auto, unfolding(crate::specs::Document::aspect_telegrams))]
fn read_counted<N: JsonValue>(
    alloc: Global,
    group: usize,
    aspect: Option<usize>,
    first: Option<usize>,
    values: &[N],
) -> Result<Group, LineError>
    ensures { Gives (λ g. g) result (aspect_telegrams group aspect first (map N.value values.now)) }
{
    if values.is_empty() || values.len() > 8 {
        return Err(LineError::Count(group));
    }
    if first.is_some_and(|first| values.len() != first) {
        return Err(LineError::Aspects(group));
    }
    let mut telegrams = Vec::new(alloc);
    'balises: for (place, value) in values.iter().enumerate() {
        let mut telegram = read_telegram(alloc, group, aspect, place, value)?;
        telegram.packets.shrink_to_fit();
        telegrams.push(telegram)?;
    }
    Ok(Group::new(telegrams).unwrap())
}

/// Reads the group, or the aspect of the group: its form, the number of its balises, and then each balise.
#[tactic(auto, unfolding(crate::specs::Document::group_aspect))]
pub(crate) fn read_aspect<N: JsonValue>(
    alloc: Global,
    group: usize,
    aspect: Option<usize>,
    first: Option<usize>,
    value: &N,
) -> Result<Group, LineError>
    ensures { Gives (λ g. g) result (group_aspect group aspect first (N.value value.now)) }
{
    match only_values(alloc, value, "balises") {
        Ok(balises) => read_counted(alloc, group, aspect, first, &balises),
        Err(error) => Err(LineError::from(in_group(error, group, aspect))),
    }
}
