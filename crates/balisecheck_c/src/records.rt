//! One record: a telegram or a radio message, from its text to its JSON line, or to its first fault.

ghost use Rattle.std.specs.Prelude.{◌≡◌, ℕ, List, Result, Ok, Err};
ghost use Rattle.etcs_radio.specs.Text.{HasPackets as HasMessagePackets};
ghost use Rattle.etcs_radio.specs.declared.error.RadioTextError.{RadioTextError};
ghost use Rattle.etcs_telegram.specs.Text.{HasPackets as HasTelegramPackets};
ghost use Rattle.etcs_telegram.specs.declared.error.TextError.{TextError};
ghost use Rattle.etcs_json.specs.JsonLine.{json_line_text};
ghost use Rattle.etcs_run.specs.TelegramLines.{IsEarly};
ghost use Rattle.balisecheck_c.specs.Answer.{IsLength, memory_status};
ghost use Rattle.balisecheck_c.specs.Fault.{message_fault, telegram_fault};
ghost use Rattle.balisecheck_c.specs.Records.{Gives, IsEarlyMessage, IsRecordAnswer, message_meaning, message_reason, record_output, telegram_meaning, telegram_reason};
ghost use Rattle.balisecheck_c.specs.declared.fault.Fault.{Fault};

use crate::answer::{count, out_of_memory, put};
use crate::fault::Fault;
use etcs_json::{WriteJson, json_line};
use etcs_radio::RadioTextError;
use etcs_run::Status;
use etcs_telegram::TextError;
use std::alloc::Global;

/// Why there is no JSON line.
#[derive(Clone, Copy)]
pub enum Unread {
    /// Memory ran out.
    Memory,
    /// The record is refused for this fault.
    Refused(Fault),
}

// The JSON line of a record.
fn line_of<T: WriteJson>(alloc: Global, value: &T) -> Result<Vec<u8>, Unread>
    ensures { Gives (λ line. line.items) result (Ok (json_line_text T.codec value.now)) }
{
    match json_line(Vec::new(alloc), value) {
        Ok(line) => Ok(line),
        Err(_) => Err(Unread::Memory),
    }
}

// Why there is no line for a text that is not read as a telegram.
fn unread_telegram(why: TextError) -> Unread
    ensures { result ≡ telegram_reason why }
{
    match why {
        TextError::Memory => Unread::Memory,
        TextError::NotHex => Unread::Refused(Fault::of_text(1)),
        TextError::WrongSize => Unread::Refused(Fault::of_text(2)),
        TextError::PadBits => Unread::Refused(Fault::of_text(3)),
        TextError::Fault(fault) => Unread::Refused(Fault::of_bits(fault)),
    }
}

// Why there is no line for a text that is not read as a message.
fn unread_message(why: RadioTextError) -> Unread
    ensures { result ≡ message_reason why }
{
    match why {
        RadioTextError::Memory => Unread::Memory,
        RadioTextError::NotHex => Unread::Refused(Fault::of_text(1)),
        RadioTextError::Fault(fault) => Unread::Refused(Fault::of_bits(fault)),
    }
}

// The JSON line of the telegram in a text.
fn telegram_line(alloc: Global, text: &[u8]) -> Result<Vec<u8>, Unread>
    ensures means { Gives (λ line. line.items) result (telegram_meaning text.now) }
    ensures early { (why : TextError) → IsEarly why text.now
        → result ≡ Err (Unread.Refused (telegram_fault why)) }
    ensures memory { (f : Fault) → telegram_meaning text.now ≡ Err f
        → result ≡ Err Unread.Memory → HasTelegramPackets text.now }
{
    match etcs_telegram::from_hex(alloc, text) {
        Ok(telegram) => line_of(alloc, &telegram),
        Err(why) => Err(unread_telegram(why)),
    }
}

// The JSON line of the message in a text.
fn message_line(alloc: Global, text: &[u8]) -> Result<Vec<u8>, Unread>
    ensures means { Gives (λ line. line.items) result (message_meaning text.now) }
    ensures early { (why : RadioTextError) → IsEarlyMessage why text.now
        → result ≡ Err (Unread.Refused (message_fault why)) }
    ensures memory { (f : Fault) → message_meaning text.now ≡ Err f
        → result ≡ Err Unread.Memory → HasMessagePackets text.now }
{
    match etcs_radio::from_hex(alloc, text) {
        Ok(message) => line_of(alloc, &message),
        Err(why) => Err(unread_message(why)),
    }
}

// Puts the line of a record into the buffer, or reports its fault.
fn answer(
    line: Result<Vec<u8>, Unread>,
    buffer: &mut [u8],
    length: &mut usize,
    fault: &mut Fault,
) -> u32
    ensures means { (meaning : Result (List ℕ) Fault) → Gives (λ line. line.items) line meaning
        → IsRecordAnswer meaning buffer.old buffer.new length.new fault.new result }
    ensures refused { (f : Fault) → line ≡ Err (Unread.Refused f)
        → (result ≡ 2) × (fault.new ≡ f) }
    ensures memory { result ≡ memory_status → line ≡ Err Unread.Memory }
{
    *fault = Fault::of_text(0);
    match line {
        Ok(text) => put(text.as_slice(), Status::Done, buffer, length),
        Err(Unread::Refused(first)) => {
            *fault = first;
            put(&[], Status::Refused, buffer, length)
        }
        Err(Unread::Memory) => out_of_memory(length),
    }
}

// The length of the line of a record. A refused record has no line.
fn length_of(line: Result<Vec<u8>, Unread>, length: &mut usize) -> u32
    ensures means { (meaning : Result (List ℕ) Fault) → Gives (λ line. line.items) line meaning
        → IsLength (record_output meaning) length.new result }
    ensures refused { (f : Fault) → line ≡ Err (Unread.Refused f) → result ≡ 2 }
    ensures memory { result ≡ memory_status → line ≡ Err Unread.Memory }
{
    match line {
        Ok(text) => count(text.as_slice(), Status::Done, length),
        Err(Unread::Refused(_)) => count(&[], Status::Refused, length),
        Err(Unread::Memory) => out_of_memory(length),
    }
}

/// A telegram, from its hexadecimal digits to its JSON line, or to its first fault.
///
/// A fault that is found before any packet is read is always reported: it needs no memory.
#[unsafe(no_mangle)]
pub extern "C" fn balisecheck_telegram(
    alloc: Global,
    input: &[u8],
    buffer: &mut [u8],
    length: &mut usize,
    fault: &mut Fault,
) -> u32
    ensures means { IsRecordAnswer (telegram_meaning input.now)
        buffer.old buffer.new length.new fault.new result }
    ensures early { (why : TextError) → IsEarly why input.now
        → (result ≡ 2) × (fault.new ≡ telegram_fault why) }

    // A text that is refused needs memory only if a packet has to be read.
    ensures memory { (f : Fault) → telegram_meaning input.now ≡ Err f
        → result ≡ memory_status → HasTelegramPackets input.now }
{
    answer(telegram_line(alloc, input), buffer, length, fault)
}

/// A radio message, from its hexadecimal digits to its JSON line, or to its first fault.
///
/// A fault that is found before any packet is read is always reported: it needs no memory.
#[unsafe(no_mangle)]
pub extern "C" fn balisecheck_message(
    alloc: Global,
    input: &[u8],
    buffer: &mut [u8],
    length: &mut usize,
    fault: &mut Fault,
) -> u32
    ensures means { IsRecordAnswer (message_meaning input.now)
        buffer.old buffer.new length.new fault.new result }
    ensures early { (why : RadioTextError) → IsEarlyMessage why input.now
        → (result ≡ 2) × (fault.new ≡ message_fault why) }

    // A text that is refused needs memory only if reading a packet may need it.
    ensures memory { (f : Fault) → message_meaning input.now ≡ Err f
        → result ≡ memory_status → HasMessagePackets input.now }
{
    answer(message_line(alloc, input), buffer, length, fault)
}

/// The length of the JSON line of a telegram, and the status with which [`balisecheck_telegram`] returns it.
#[unsafe(no_mangle)]
pub extern "C" fn balisecheck_telegram_length(
    alloc: Global,
    input: &[u8],
    length: &mut usize,
) -> u32
    ensures means { IsLength (record_output (telegram_meaning input.now)) length.new result }
    ensures early { (why : TextError) → IsEarly why input.now → result ≡ 2 }

    // A text that is refused needs memory only if a packet has to be read.
    ensures memory { (f : Fault) → telegram_meaning input.now ≡ Err f
        → result ≡ memory_status → HasTelegramPackets input.now }
{
    length_of(telegram_line(alloc, input), length)
}

/// The length of the JSON line of a radio message, and the status with which [`balisecheck_message`] returns it.
#[unsafe(no_mangle)]
pub extern "C" fn balisecheck_message_length(alloc: Global, input: &[u8], length: &mut usize) -> u32
    ensures means { IsLength (record_output (message_meaning input.now)) length.new result }
    ensures early { (why : RadioTextError) → IsEarlyMessage why input.now → result ≡ 2 }

    // A text that is refused needs memory only if reading a packet may need it.
    ensures memory { (f : Fault) → message_meaning input.now ≡ Err f
        → result ≡ memory_status → HasMessagePackets input.now }
{
    length_of(message_line(alloc, input), length)
}
