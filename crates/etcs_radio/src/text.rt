//! `from_hex` and `to_hex`: messages as hexadecimal text.

ghost use Rattle.std.specs.Prelude.{◌≡◌, ◌↔◌, ◌/◌, ℕ, List, length, min, take, Ok, Err, IfOk, IfErr, IsErrOf, IsTrue, string_bytes};
ghost use Rattle.hex.specs.Hex.{decode_of};
ghost use Rattle.etcs_digits.specs.Hexadecimal.{IsHexadecimal};
ghost use Rattle.etcs_bits.specs.declared.layout.fault.Fault.{Fault};
ghost use Rattle.etcs_radio.specs.Message.{IsTooBig};
ghost use Rattle.etcs_radio.specs.Text.{HasHeadFault, HasPackets, IsCanonicalText, IsMessageText, IsReason, IsTextMeaning};
ghost use Rattle.etcs_radio.specs.TextMeaning.{message_of_text};

use crate::decoding::decode;
use crate::encoding::encode;
use crate::error::{EncodeError, RadioTextError};
use crate::message::Message;
use etcs_bits::DecodeError;
use etcs_digits::is_hexadecimal;
use std::alloc::Global;

// Writes the first bytes that the digits of a text spell: 1,024, or all if there are fewer. Returns
// whether the text is an even number of digits. A text that spells at most 1,024 bytes is read in one pass.
fn read_front(text: &[u8], front: &mut [u8]) -> bool
    requires { length front.old ≡ min (length text.now / 2) 1024 }
    ensures digits { IsTrue result ↔ IsHexadecimal text.now }
    ensures front { (bytes : List ℕ) → decode_of text.now ≡ Ok bytes
        → front.new ≡ take (min (length text.now / 2) 1024) bytes }
{
    let len = 2 * front.len();
    etcs_digits::decode(&text[..len], front) && (text.len() == len || is_hexadecimal(text))
}

// Reads a message from its text, as `from_hex` does.
fn read(alloc: Global, text: &[u8]) -> Result<Message, RadioTextError>
    ensures exact { IsTextMeaning result (message_of_text text.now) }
    ensures packets { IsErrOf result RadioTextError.Memory → HasPackets text.now }
{
    // L_MESSAGE counts 1,023 bytes at most. The first 1,024 bytes of a longer text show its fault.
    let count = (text.len() / 2).min(1024);
    let mut room = [0; 1024];
    let bytes = &mut room[..count];
    if !read_front(text, bytes) {
        return Err(RadioTextError::NotHex);
    }
    match decode(alloc, bytes) {
        Ok(message) => Ok(message),
        Err(DecodeError::Memory) => Err(RadioTextError::Memory),
        Err(DecodeError::Fault(fault)) => Err(RadioTextError::Fault(fault)),
    }
}

/// Reads a message from its text, which is an even number of hexadecimal digits of either case.
///
/// `NotHex` and the first fault of the bytes are checked in this order. Only packets allocate. If memory runs
/// out, a fault after the head might be unreported. After an error nothing is returned of what was read.
pub fn from_hex(alloc: Global, text: &[u8]) -> Result<Message, RadioTextError>
    ensures ok { IfOk result (λ m. IsMessageText m text.now) }
    ensures reason { IfErr result (λ e. IsReason e text.now) }

    // The result, as a function of the text.
    ensures exact { IsTextMeaning result (message_of_text text.now) }

    // These are always reported: they need no memory.
    ensures not_hex { IsErrOf result RadioTextError.NotHex ↔ (IsHexadecimal text.now → ⊥) }
    ensures head { (f : Fault) → HasHeadFault text.now f
        → result ≡ Err (RadioTextError.Fault f) }

    // Allocates only if `decode` does.
    ensures packets { IsErrOf result RadioTextError.Memory → HasPackets text.now }
{
    read(alloc, text)
}

/// Writes the message's canonical text: its bytes in lower-case hexadecimal digits.
///
/// `TooBig`: the head and the packets have more bits than 1,023 bytes have. This is checked before the
/// call allocates. After an error the record is unchanged, and no text is returned.
pub fn to_hex(alloc: Global, message: &Message) -> Result<String, EncodeError>
    ensures ok { IfOk result (λ s. IsCanonicalText message.now (string_bytes s)) }
    ensures too_big { IsErrOf result EncodeError.TooBig ↔ IsTooBig message.now }
{
    let bytes = encode(alloc, message)?;
    hex::encode(alloc, bytes.as_slice()).map_err(|_| EncodeError::Memory)
}
