//! `Encoding`, the command `encode`: a line of JSON, the form of a telegram or of a radio message, becomes a line of
//! hexadecimal text. A line that `decode` writes is parsed in one pass, and any other line as a JSON value. The trait
//! `Encoded`: a record that is read from a line and has a text.

ghost use Rattle.std.specs.Prelude.{◌≡◌, ◌++◌, ℕ, false, List, Result, Err, codes, IfOk, IfSome, IsErr, IsOk};
ghost use Rattle.std.specs.Str.{is_utf8};
ghost use Rattle.serde_json.specs.Data.{Data};
ghost use Rattle.etcs_json.specs.JsonLine.{IsReadAs, json_line_text};
ghost use Rattle.etcs_schema.specs.Codec.{Codec};
ghost use Rattle.etcs_schema.specs.Fault.{IfMemory, Returns};
ghost use Rattle.etcs_run.specs.FormLines.{or_fault, parsed_record};
ghost use Rattle.etcs_run.specs.TextLineMeaning.{Gives};

use crate::text_line_meaning::{TextLineMeaning, Unwritten};
use etcs_bits::Memory;
use etcs_document::LineFault;
use etcs_json::{Form, message_of_line, telegram_of_line};
use etcs_radio::Message;
use etcs_schema::{FormError, JsonError, JsonTree, JsonValue, ParsedJson};
use etcs_telegram::Telegram;
use json::Scratch;
use std::alloc::Global;
use std::marker::PhantomData;

// The record whose form the JSON value is.
fn record_of<T: Encoded, V: JsonTree>(alloc: Global, tree: &V) -> Result<T, Unwritten>
    ensures gives { Gives (λ x. x) result (or_fault (T.form.of (V.value tree.now))) }

    // Reading without allocation never runs out of memory.
    ensures memory { result ≡ Err Unwritten.Memory → T.asks (V.value tree.now) }
{
    match T::read_form(alloc, &tree) {
        Ok(record) => Ok(record),
        Err(why) => match why {
            FormError::Memory => Err(Unwritten::Memory),
            _ => Err(Unwritten::Refused(LineFault::Form(why))),
        },
    }
}

// The record whose form the line is. `written` is the buffer of an earlier line.
#[tactic(auto, using(etcs_document::proofs::DocumentLemmas::not_readable))]
fn record_in_line<T: Encoded>(
    alloc: Global,
    scratch: &mut Scratch,
    written: &mut Vec<u8>,
    line: &[u8],
) -> Result<T, Unwritten>
    ensures gives { Gives (λ x. x) result (parsed_record T.form line.now) }

    // This is always reported: it needs no memory.
    ensures unreadable { is_utf8 line.now ≡ false → result ≡ Err (Unwritten.Refused LineFault.Json) }
{
    let Ok(text) = str::from_utf8(line) else {
        return Err(Unwritten::Refused(LineFault::Json));
    };
    if let Some(record) = T::of_line(alloc, written, line) {
        return Ok(record);
    }
    match ParsedJson::read(alloc, text, scratch) {
        Ok(json) => record_of(alloc, json.root()),
        Err(JsonError::NotJson) => Err(Unwritten::Refused(LineFault::Json)),
        Err(JsonError::Memory) => Err(Unwritten::Memory),
    }
}

// The digits with the end of the line, in the buffer of an earlier line.
fn ended_line(mut line: Vec<u8>, digits: &str) -> Result<Vec<u8>, Memory>
    ensures { IfOk result (λ v. v.items ≡ digits.now ++ codes "\n") }
{
    line.clear();
    line.extend_from_slice(digits.as_bytes())?;
    line.push(b'\n')?;
    Ok(line)
}

/// A record that has a text in hexadecimal digits: a telegram or a radio message.
pub trait Encoded: Drop {
    /// The form of the record.
    ghost form: { Codec Self };

    /// Whether reading this value can allocate.
    ghost asks: { Data → Type 0 };

    /// The line of the record's canonical text, or the reason why there is none, in words.
    ghost line: { Self → Result (List ℕ) (List ℕ) };

    /// Reads the record's form from a JSON value, as [`Form::read_json`] does.
    fn read_form<N: JsonValue>(alloc: Global, node: &N) -> Result<Self, FormError>
        ensures gives { Returns (λ x. x) result (form.of (N.value node.now)) }

        // Reading without allocation never runs out of memory.
        ensures memory { IfMemory result (asks (N.value node.now)) };

    /// The record whose form the text is, if the text is what `json_line` writes for it, without the `\n`. `None`
    /// is inconclusive.
    fn of_line(alloc: Global, room: &mut Vec<u8>, text: &[u8]) -> Option<Self>
        ensures line { IfSome result (λ x. json_line_text form x ≡ text.now ++ codes "\n") }
        ensures read { IfSome result (λ x. IsReadAs form text.now x) };

    /// The record's text as a line. `room` is the buffer of an earlier line.
    ///
    /// `Memory`: an allocation failed. Otherwise the record is too big to have a text.
    fn text_line(&self, alloc: Global, room: Vec<u8>) -> Result<Vec<u8>, Unwritten>
        ensures gives { Gives (λ bytes. bytes.items) result (line self.now) }

        // A record without a text is always reported: it needs no memory.
        ensures too_big { IsErr (line self.now) → result ≡ Err (Unwritten.Refused LineFault.TooBig) };
}

// A telegram has no text if it has more bits than its size.
#[tactic(auto, using(crate::proofs::FormLemmas::telegram_too_big, crate::proofs::FormLemmas::telegram_without_text))]
impl Encoded for Telegram {
    ghost use Rattle.etcs_json.specs.Telegrams.{telegram};
    ghost use Rattle.etcs_schema.specs.Codec.{object};
    ghost use Rattle.etcs_schema.specs.Reading.{only_keys};
    ghost use Rattle.etcs_run.specs.FormLines.{telegram_line};

    ghost form = { object telegram };

    ghost asks = { λ d. IsOk (only_keys telegram.members.keys d) };

    ghost line = { telegram_line };

    fn read_form<N: JsonValue>(alloc: Global, node: &N) -> Result<Self, FormError> {
        Form::read_json(alloc, node)
    }

    fn of_line(alloc: Global, room: &mut Vec<u8>, text: &[u8]) -> Option<Self> {
        telegram_of_line(alloc, room, text)
    }

    fn text_line(&self, alloc: Global, room: Vec<u8>) -> Result<Vec<u8>, Unwritten> {
        match etcs_telegram::to_hex(alloc, self) {
            Ok(digits) => Ok(ended_line(room, digits.as_str())?),
            Err(etcs_telegram::EncodeError::Memory) => Err(Unwritten::Memory),
            Err(etcs_telegram::EncodeError::TooBig) => Err(Unwritten::Refused(LineFault::TooBig)),
        }
    }
}

// A message has no text if it has more than 1,023 bytes.
#[tactic(auto, using(crate::proofs::FormLemmas::message_too_big, crate::proofs::FormLemmas::message_without_text))]
impl Encoded for Message {
    ghost use Rattle.etcs_json.specs.AnyMessage.{message};
    ghost use Rattle.etcs_schema.specs.Choices.{any_object};
    ghost use Rattle.etcs_run.specs.FormLines.{message_line};

    ghost form = { message };

    ghost asks = { λ d. IsOk (any_object d) };

    ghost line = { message_line };

    fn read_form<N: JsonValue>(alloc: Global, node: &N) -> Result<Self, FormError> {
        Form::read_json(alloc, node)
    }

    fn of_line(alloc: Global, room: &mut Vec<u8>, text: &[u8]) -> Option<Self> {
        message_of_line(alloc, room, text)
    }

    fn text_line(&self, alloc: Global, room: Vec<u8>) -> Result<Vec<u8>, Unwritten> {
        match etcs_radio::to_hex(alloc, self) {
            Ok(digits) => Ok(ended_line(room, digits.as_str())?),
            Err(etcs_radio::EncodeError::Memory) => Err(Unwritten::Memory),
            Err(etcs_radio::EncodeError::TooBig) => Err(Unwritten::Refused(LineFault::TooBig)),
        }
    }
}

/// A line is the JSON form of a record, and becomes its canonical text. A line is refused if it is not JSON, not
/// the form of a record, or the form of a record without a text.
#[derive(Drop)]
pub struct Encoding<T> {
    // Room for the strings of a line.
    scratch: Scratch,
    // Room for what is written of a record, to compare it with the line.
    written: Vec<u8>,
    record: PhantomData<T>,
}

impl<T> Encoding<T> {
    /// The meaning of each line. Allocates nothing yet.
    pub fn new(alloc: Global) -> Encoding<T> {
        Encoding {
            scratch: Scratch::new(alloc),
            written: Vec::new(alloc),
            record: PhantomData,
        }
    }
}

#[tactic(auto, unfolding(crate::specs::FormLines::encoded))]
impl<T: Encoded> TextLineMeaning for Encoding<T> {
    ghost use Rattle.etcs_run.specs.FormLines.{encoded};

    ghost meaning = { encoded T.form T.line };

    /// The text of the record whose form the line is. `room` is the buffer of an earlier line.
    ///
    /// `Memory`: an allocation failed. Otherwise the line is refused for the first reason. A line that is not
    /// UTF-8 is always reported: it needs no memory.
    fn text(&mut self, alloc: Global, room: Vec<u8>, line: &[u8]) -> Result<Vec<u8>, Unwritten>
        ensures means { Gives (λ text. text.items) result (encoded T.form T.line line.now) }
        ensures unreadable { is_utf8 line.now ≡ false → result ≡ Err (Unwritten.Refused LineFault.Json) }
    {
        let record: T = record_in_line(alloc, &mut self.scratch, &mut self.written, line)?;
        record.text_line(alloc, room)
    }
}
