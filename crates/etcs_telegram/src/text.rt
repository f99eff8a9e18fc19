//! `from_hex` and `to_hex`: telegrams as hexadecimal text.

ghost use Rattle.std.specs.Prelude.{◌≡◌, ◌↔◌, ◌*◌, false, length, Ok, Err, IfOk, IfErr, IsErrOf, IsTrue, OnOk, string_bytes};
ghost use Rattle.hex.specs.Hex.{decode_of, encode_lower, IsBytes};
ghost use Rattle.etcs_digits.specs.Hexadecimal.{IsHexadecimal};
ghost use Rattle.etcs_bits.specs.declared.layout.fault.Fault.{Fault};
ghost use Rattle.etcs_telegram.specs.Sizes.{byte_count};
ghost use Rattle.etcs_telegram.specs.Telegram.{IsTooBig};
ghost use Rattle.etcs_telegram.specs.Text.{HasHeaderFault, HasPackets, HavePackets, IsCanonicalText, IsReason, IsReasonDecoded, IsTelegramText, IsTextMeaning};
ghost use Rattle.etcs_telegram.specs.TextMeaning.{of_bytes, pads_with_zeros, telegram_of_text};

use crate::decoding::decode_slice;
use crate::encoding::encode;
use crate::error::{EncodeError, TextError};
use crate::size::Size;
use crate::telegram::Telegram;
use etcs_bits::{BitSlice, DecodeError};
use etcs_digits::is_hexadecimal;
use std::alloc::Global;

// Writes the bytes that the digits of a text spell, two digits for each. Returns whether each byte
// of the text is a digit.
#[inline]
fn read_digits<const N: usize>(text: &[u8], bytes: &mut [u8; N]) -> bool
    requires { length text.now ≡ 2 * N }
    ensures digits { IsTrue result → decode_of text.now ≡ Ok bytes.new }
    ensures others { result ≡ false → IsHexadecimal text.now → ⊥ }
{
    etcs_digits::decode(text, bytes)
}

// Whether all pad bits are zeros.
#[inline]
fn is_padded(size: Size, bytes: &[u8]) -> bool
    requires { length bytes.now ≡ byte_count size }
    ensures { result ≡ pads_with_zeros size bytes.now }
{
    bytes[size.byte_count() - 1] % (1 << size.pad_count()) == 0
}

// The telegram in these bytes. Allocates only if a packet is due.
fn telegram_in(alloc: Global, bytes: &[u8]) -> Result<Telegram, TextError>
    ensures exact { IsTextMeaning result (of_bytes bytes.now) }
    ensures packets { IsErrOf result TextError.Memory → HavePackets bytes.now }
{
    let Some(size) = Size::in_bytes(bytes.len()) else {
        return Err(TextError::WrongSize);
    };
    if !is_padded(size, bytes) {
        return Err(TextError::PadBits);
    }
    match decode_slice(alloc, BitSlice::of_bytes(bytes, size.user_bits())) {
        Ok(telegram) => Ok(telegram),
        Err(DecodeError::Memory) => Err(TextError::Memory),
        Err(DecodeError::Fault(fault)) => Err(TextError::Fault(fault)),
    }
}

// The telegram in the digits of `N` bytes.
fn telegram_of_digits<const N: usize>(alloc: Global, text: &[u8]) -> Result<Telegram, TextError>
    requires { length text.now ≡ 2 * N }
    ensures exact { IsTextMeaning result (telegram_of_text text.now) }
    ensures packets { IsErrOf result TextError.Memory → HasPackets text.now }
{
    let mut bytes = [0u8; N];
    if !read_digits(text, &mut bytes) {
        return Err(TextError::NotHex);
    }
    telegram_in(alloc, &bytes)
}

// The telegram in a text.
fn read(alloc: Global, text: &[u8]) -> Result<Telegram, TextError>
    ensures exact { IsTextMeaning result (telegram_of_text text.now) }
    ensures packets { IsErrOf result TextError.Memory → HasPackets text.now }
{
    match text.len() {
        54 => telegram_of_digits::<27>(alloc, text),
        208 => telegram_of_digits::<104>(alloc, text),
        _ if is_hexadecimal(text) => Err(TextError::WrongSize),
        _ => Err(TextError::NotHex),
    }
}

/// Reads a telegram from its text: 54 or 208 hexadecimal digits of either case. The last six or two
/// bits are zeros (pad bits).
///
/// `NotHex`, `WrongSize`, `PadBits` and the first fault of the user bits are checked in this order.
/// The call returns the first of them that holds. Only packets allocate. If memory runs out, a fault
/// after the header might be unreported. After an error nothing is returned of what was read.
pub fn from_hex(alloc: Global, text: &[u8]) -> Result<Telegram, TextError>
    ensures ok { IfOk result (λ t. IsTelegramText t text.now) }
    ensures reason { IfErr result (λ e. IsReason e text.now) }

    // The result, as a function of the text.
    ensures exact { IsTextMeaning result (telegram_of_text text.now) }

    // Each of these is always reported: it needs no memory.
    ensures not_hex { IsErrOf result TextError.NotHex ↔ (IsHexadecimal text.now → ⊥) }
    ensures wrong_size { IsErrOf result TextError.WrongSize
        ↔ IsReasonDecoded TextError.WrongSize text.now }
    ensures pad_bits { IsErrOf result TextError.PadBits
        ↔ IsReasonDecoded TextError.PadBits text.now }
    ensures header { (f : Fault) → HasHeaderFault text.now f
        → result ≡ Err (TextError.Fault f) }

    // Allocates only if a packet is due after the header. So a telegram without packets is always
    // read.
    ensures packets { IsErrOf result TextError.Memory → HasPackets text.now }
{
    read(alloc, text)
}

// The lower-case digits of bytes.
fn digits_of(alloc: Global, bytes: &[u8]) -> Result<String, EncodeError>
    ensures text { IfOk result (λ s. string_bytes s ≡ encode_lower bytes.now) }
    ensures in_range { OnOk result (IsBytes bytes.now) }
    ensures err { IfErr result (λ e. e ≡ EncodeError.Memory) }
{
    match hex::encode(alloc, bytes) {
        Ok(text) => Ok(text),
        Err(_) => Err(EncodeError::Memory),
    }
}

/// Writes the telegram's canonical text: its user bits, filled up with ones, and zeros as pad bits,
/// in 54 or 208 lower-case hexadecimal digits.
///
/// `TooBig`: the header, the packets and the end mark have more bits than the telegram's size. This
/// is checked before the call allocates. After an error the record is unchanged, and no text is
/// returned.
pub fn to_hex(alloc: Global, telegram: &Telegram) -> Result<String, EncodeError>
    ensures ok { IfOk result (λ s. IsCanonicalText telegram.now (string_bytes s)) }
    ensures too_big { IsErrOf result EncodeError.TooBig ↔ IsTooBig telegram.now }
{
    let bits = encode(alloc, telegram)?;
    let bytes = bits.to_bytes(alloc)?;
    digits_of(alloc, bytes.as_slice())
}
