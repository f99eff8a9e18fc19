//! A record as a line of JSON, and such a line as the record.

ghost use Rattle.std.specs.Prelude.{◌≡◌, ◌++◌, ◌↔◌, codes, IfOk, IfSome, IsTrue};
ghost use Rattle.etcs_json.specs.AnyMessage.{message};
ghost use Rattle.etcs_json.specs.JsonLine.{IsReadAs, json_line_text};
ghost use Rattle.etcs_json.specs.Telegrams.{telegram};
ghost use Rattle.etcs_schema.specs.Codec.{object};

use crate::WriteJson;
use crate::canonical::{FromCanonical, Scanner};
use crate::messages::message_form::prove_message_allowed;
use crate::record::InRange;
use etcs_bits::Memory;
use etcs_digits::JsonLineWriter;
use etcs_radio::Message;
use etcs_telegram::Telegram;
use std::alloc::Global;

/// The JSON line of a value, with its `\n`, in the buffer `room`, whose content is lost. Fails only if memory
/// runs out; then the buffer is dropped.
pub fn json_line<T: WriteJson>(room: Vec<u8>, value: &T) -> Result<Vec<u8>, Memory>
    ensures { IfOk result (λ line. line.items ≡ json_line_text T.codec value.now) }
{
    let mut out = JsonLineWriter::new(room);
    value.write_json(&mut out)?;
    let line = out.into_line()?;
    Ok(line)
}

// Whether these bytes are the line with its `\n`.
fn is_line(written: &[u8], line: &[u8]) -> bool
    ensures { IsTrue result ↔ (written.now ≡ line.now ++ codes "\n") }
{
    match written.strip_suffix(b"\n") {
        Some(text) => text == line,
        None => false,
    }
}

// The record for which `json_line` writes this line. No contract says what the parser returns, so the record is
// written again and compared with the line. `None` is inconclusive.
fn written_as<T: WriteJson + FromCanonical>(
    alloc: Global,
    room: &mut Vec<u8>,
    line: &[u8],
) -> Option<T>
    ensures { IfSome result (λ x. json_line_text T.codec x ≡ line.now ++ codes "\n") }
{
    let record = T::parse(&mut Scanner { alloc, rest: line })?;
    let written = json_line(std::mem::replace(room, Vec::new(alloc)), &record).ok()?;
    let is_same = is_line(&written, line);
    *room = written;
    if is_same { Some(record) } else { None }
}

/// The telegram whose form the line is, if the line is exactly what [`json_line`] writes for it, without the
/// `\n`. `None` is inconclusive: the line may be another spelling of a form, or no form, or memory ran out. The
/// content of `room` is lost.
pub fn telegram_of_line(alloc: Global, room: &mut Vec<u8>, line: &[u8]) -> Option<Telegram>
    ensures line { IfSome result (λ t. json_line_text (object telegram) t ≡ line.now ++ codes "\n") }
    ensures read { IfSome result (λ t. IsReadAs (object telegram) line.now t) }
{
    let record: Telegram = written_as(alloc, room, line)?;
    record.prove_in_range();
    Some(record)
}

/// The radio message whose form the line is, under the conditions of [`telegram_of_line`].
pub fn message_of_line(alloc: Global, room: &mut Vec<u8>, line: &[u8]) -> Option<Message>
    ensures line { IfSome result (λ m. json_line_text message m ≡ line.now ++ codes "\n") }
    ensures read { IfSome result (λ m. IsReadAs message line.now m) }
{
    let record: Message = written_as(alloc, room, line)?;
    prove_message_allowed(&record);
    Some(record)
}
