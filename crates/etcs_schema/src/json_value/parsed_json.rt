//! `ParsedJson`: a JSON text as a tree. `JsonError`: why a text is refused.

ghost use Rattle.std.specs.Prelude.{◌≡◌, ◌<◌, ◌⊎◌, length, Some, None, Err, IfOk, IsTrue};
ghost use Rattle.json.specs.Lex.{tokens};
ghost use Rattle.json.specs.Reads.{opens};
ghost use Rattle.json.specs.Scratch.{room};
ghost use Rattle.json.specs.Value.{value_view};
ghost use Rattle.serde_json.specs.Read.{read};

use crate::json_value::tree_range::is_in_range;
use json::{Reader, Scratch, Value};
use std::alloc::Global;

// How deep lists and objects may nest, as in `serde_json`.
const MAX_DEPTH: usize = 127;

/// Why a text was not read.
#[derive(Clone, Copy, Debug, Drop, PartialEq, Eq)]
pub enum JsonError {
    /// Memory ran out.
    Memory,
    /// The text is not JSON, a number is out of range, or lists and objects nest deeper than 127.
    NotJson,
}

/// A JSON text with all numbers in range and at most 127 levels of nesting.
#[derive(Drop)]
pub struct ParsedJson<'a> {
    value: Value<'a>,
}

impl<'a> ParsedJson<'a> {
    ghost use Rattle.etcs_schema.specs.json_value.Texts.{json_data, text_data};

    /// Reads a text as `serde_json` does. The tree borrows strings from the text, and strings with escapes from
    /// the scratch, which grows to the length of the text.
    pub fn read(
        alloc: Global,
        text: &'a str,
        scratch: &'a mut Scratch,
    ) -> Result<ParsedJson<'a>, JsonError>
        ensures ok { IfOk result (λ t. read text.now ≡ Some (text_data t)) }
        ensures not_json { result ≡ Err JsonError.NotJson → read text.now ≡ None }

        // Never for a text without lists and objects, if the scratch is large enough.
        ensures memory { result ≡ Err JsonError.Memory
            → IsTrue (opens (tokens text.now)) ⊎ (room scratch.old < length text.now) }
    {
        let Ok(mut reader) = Reader::new(text, scratch) else {
            return Err(JsonError::Memory);
        };
        let value = match Value::read(alloc, &mut reader, MAX_DEPTH) {
            Ok(value) => value,
            Err(json::Error::OutOfMemory) => return Err(JsonError::Memory),
            Err(json::Error::Invalid) => return Err(JsonError::NotJson),
            Err(json::Error::TooLong | json::Error::DuplicateKey) => {
                unreachable!("only tapes and strict reading give these")
            }
        };
        if reader.next().is_none() && is_in_range(&value) {
            Ok(ParsedJson { value })
        } else {
            Err(JsonError::NotJson)
        }
    }

    /// The value of the text.
    pub fn root(&self) -> &Value<'a>
        ensures { json_data (value_view result.now) ≡ text_data self.now }
    {
        &self.value
    }
}
