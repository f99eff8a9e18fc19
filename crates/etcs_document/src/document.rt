//! `read_line`: reads the document of a railway line into a `Line`.

ghost use Rattle.std.specs.Prelude.{◌≡◌, [], false};
ghost use Rattle.std.specs.Str.{is_utf8};
ghost use Rattle.etcs_document.specs.Document.{document_line, json_value, line_of_text};
ghost use Rattle.etcs_document.specs.DocumentFault.{Gives};
ghost use Rattle.etcs_schema.specs.json_value.Texts.{text_data};

use crate::document_values::read_list;
use crate::line_error::LineError;
use etcs_check::Line;
use etcs_group::Controlled;
use etcs_radio::Message;
use etcs_schema::{JsonError, JsonTree, ParsedJson, check_keys};
use json::Scratch;
use std::alloc::Global;

/// Reads the bytes as one JSON value.
#[tactic(auto, unfolding(crate::specs::Document::json_value))]
pub(crate) fn read_json<'a>(
    alloc: Global,
    bytes: &'a [u8],
    scratch: &'a mut Scratch,
) -> Result<ParsedJson<'a>, LineError>
    ensures gives { Gives (λ t. text_data t) result (json_value bytes.now) }
    ensures empty { bytes.now ≡ [] → result ≡ Err LineError.NotJson }
    ensures unreadable { is_utf8 bytes.now ≡ false → result ≡ Err LineError.NotJson }
{
    let Ok(text) = str::from_utf8(bytes) else {
        return Err(LineError::NotJson);
    };
    match ParsedJson::read(alloc, text, scratch) {
        Ok(json) => Ok(json),
        Err(JsonError::NotJson) => Err(LineError::NotJson),
        Err(JsonError::Memory) => Err(LineError::Memory),
    }
}

// Reads the railway line of a document: the groups, and then the messages.
#[tactic(auto, unfolding(crate::specs::Document::document_line, crate::specs::Document::line_groups, crate::specs::Document::line_messages))]
fn read_document<T: JsonTree>(alloc: Global, tree: &T) -> Result<Line, LineError>
    ensures { Gives (λ l. (l.groups.items, l.messages.items)) result (document_line (T.value tree.now)) }
{
    check_keys(alloc, &tree, &["groups", "messages"])?;
    let mut groups = Vec::new(alloc);
    read_list::<Controlled, _, Vec<Controlled>>(alloc, &tree, "groups", &mut groups)?;
    let mut messages = Vec::new(alloc);
    read_list::<Message, _, Vec<Message>>(alloc, &tree, "messages", &mut messages)?;
    Ok(Line { groups, messages })
}

/// Reads the document of a railway line: `{"groups":[{"balises":["TEXT"]}],"messages":["TEXT"]}`,
/// where each text is the hexadecimal digits of a telegram or of a radio message. A group that a
/// lineside unit switches is `{"aspects":[{"balises":["TEXT"]}]}`, with one item for each aspect.
/// (The form is this project's.)
///
/// The error is the first fault, depth first: `NotJson`; then a value that is not an object, or has another key;
/// then the list of groups, and group by group its form, the number of its balises and each balise, or its list
/// of aspects, aspect by aspect; and only then the list of messages, even if it is missing, and each message. The
/// number of balises of an aspect is compared with aspect 0 before its balises are read. The only other error is
/// that memory ran out. A fault might then be unreported, except that the input is empty or not UTF-8. After an
/// error nothing is returned of what was read.
#[tactic(auto, unfolding(crate::specs::Document::line_of_text))]
pub fn read_line(alloc: Global, bytes: &[u8]) -> Result<Line, LineError>
    ensures exact { Gives (λ l. (l.groups.items, l.messages.items)) result (line_of_text bytes.now) }

    // An empty input and an input that is not UTF-8 are not JSON, even if memory is short.
    ensures empty { bytes.now ≡ [] → result ≡ Err LineError.NotJson }
    ensures unreadable { is_utf8 bytes.now ≡ false → result ≡ Err LineError.NotJson }
{
    let mut scratch = Scratch::new(alloc);
    let document = read_json(alloc, bytes, &mut scratch)?;
    read_document(alloc, document.root())
}
