//! `BodyMember`: the text of a raw packet's body, hexadecimal digits, with zeros after the last bit up to a whole
//! byte.

ghost use Rattle.std.specs.Prelude.{◌≡◌, ◌+◌, ◌*◌, ◌<◌, ◌≤◌, ◌∷◌, [], codes, length, take, drop, Some, IfOk, OnOk};
ghost use Rattle.hex.specs.Hex.{decode_of};
ghost use Rattle.serde_json.specs.Data.{string};
ghost use Rattle.etcs_bits.specs.bits.Number.{num_of_bits};
ghost use Rattle.etcs_schema.specs.BodyText.{are_padded, body_bytes, body_text, byte_count, decoded_or, padded_bits, first_bits};
ghost use Rattle.etcs_schema.specs.Fault.{Returns};
ghost use Rattle.etcs_schema.specs.Writing.{AddsMembers};

use crate::members::WriteMembers;
use etcs_bits::{BitSlice, Bits, Memory};
use etcs_schema::{FormError, TokenWriter};
use hex::FromHexError;
use json::Token;
use std::alloc::Global;
use std::marker::Model;

// The most bits for which small buffers are enough. A telegram has no longer body.
const FEW_BITS: usize = 1024;

// The byte of the eight bits from `at` on. Zeros follow the last bit.
#[inline]
#[tactic(auto, using(etcs_schema::proofs::BodyTextLemmas::whole_byte, etcs_schema::proofs::BodyTextLemmas::last_byte, etcs_schema::proofs::BodyTextLemmas::byte_small))]
fn byte_at(bits: &BitSlice<'_>, at: usize) -> u8
    requires inside { at + 8 ≤ 8 * byte_count (length bits.now) }
    requires not_past { at < length bits.now }
    ensures { result ≡ num_of_bits (take 8 (drop at (padded_bits bits.now))) }
{
    let left = bits.len() - at;
    if left >= 8 {
        return bits.num(at, 8) as u8;
    }
    (bits.num(at, left as u32) << (8 - left)) as u8
}

// The bytes of the bits. The rest of the array carries no information.
#[tactic(auto, unfolding(etcs_schema::specs::BodyText::packed_bytes))]
fn bytes_of<const BYTES: usize>(bits: &BitSlice<'_>) -> [u8; BYTES]
    requires { length bits.now ≤ 8 * BYTES }
    ensures { take (byte_count (length bits.now)) result ≡ body_bytes bits.now }
{
    let mut bytes = [0; BYTES];
    'bytes: for i in 0..bits.len().div_ceil(8) {
        bytes[i] = byte_at(bits, 8 * i);
    }
    bytes
}

// Writes the member with this text.
fn write_text<M: TokenWriter>(out: &mut M, text: &str) -> Result<(), Memory>
    ensures { OnOk result (AddsMembers M.adds
        ((codes "body", Some (string text.now)) ∷ []) out.old out.new) }
{
    out.token(Token::Key("body"))?;
    out.token(Token::String(text))?;
    Ok(())
}

// Writes the body, with buffers for `BYTES` bytes and for their digits.
fn write_in_room<const BYTES: usize, const DIGITS: usize, M: TokenWriter>(
    out: &mut M,
    bits: &Bits,
) -> Result<(), Memory>
    requires bytes { length bits.now ≤ 8 * BYTES }
    requires digits { (2 * BYTES ≤ DIGITS) × (DIGITS ≤ 2044) }
    ensures { OnOk result (AddsMembers M.adds
        ((codes "body", Some (string (body_text bits.now))) ∷ []) out.old out.new) }
{
    let bytes: [u8; BYTES] = bytes_of(&bits.slice());
    let count = bits.len().div_ceil(8);
    let mut digits = [0; DIGITS];
    let room = &mut digits[..2 * count];
    let Ok(()) = hex::encode_to_slice(&bytes[..count], room) else {
        unreachable!("there is room for two digits a byte")
    };
    let Ok(text) = str::from_utf8(room) else {
        unreachable!("digits are text")
    };
    write_text(out, text)
}

/// The member `body`. No packet's body has more than 8,170 bits, which are 1,022 bytes.
#[derive(Drop)]
pub(crate) struct BodyMember<'a> {
    pub(crate) body: &'a Bits,
}

impl<'a> Model for BodyMember<'a> {
    ghost use Rattle.std.specs.Prelude.{◌≤◌, Bool, List, length};

    ghost Value = { List Bool };

    ghost view = { λ m. m.body.now };

    ghost invariant = { λ m. length m.body.now ≤ 8170 };
}

impl WriteMembers for BodyMember<'_> {
    ghost entries = { λ body. (codes "body", Some (string (body_text body))) ∷ [] };

    fn write<M: TokenWriter>(&self, out: &mut M) -> Result<(), Memory> {
        if self.body.len() <= FEW_BITS {
            write_in_room::<128, 256, M>(out, self.body)
        } else {
            write_in_room::<1022, 2044, M>(out, self.body)
        }
    }
}

// Whether the bits after the first `count` are zeros.
fn is_padded(bytes: &[u8], count: usize) -> bool
    requires many { count ≤ 8170 }
    requires whole { length bytes.now ≡ byte_count count }
    ensures { result ≡ are_padded count bytes.now }
{
    let whole = 8 * bytes.len();
    let pads = whole - count;
    pads == 0 || BitSlice::of_bytes(bytes, whole).num(count, pads as u32) == 0
}

// The first bits of exactly as many bytes as these bits need. No other bit may be set.
fn bits_in(alloc: Global, bytes: &[u8], count: usize) -> Result<Bits, FormError>
    requires { count ≤ 8170 }
    ensures gives { Returns (λ b. b) result (first_bits count bytes.now) }
    ensures len { IfOk result (λ b. length b ≡ count) }
{
    if bytes.len() == count.div_ceil(8) && is_padded(bytes, count) {
        let bits = Bits::from_bytes(alloc, bytes, count)?;
        Ok(bits)
    } else {
        Err(FormError::range(alloc))
    }
}

/// Reads the text of a body of `count` bits.
pub(crate) fn body_in(alloc: Global, text: &str, count: usize) -> Result<Bits, FormError>
    requires { count ≤ 8170 }
    ensures gives { Returns (λ b. b) result (decoded_or count (decode_of text.now)) }
    ensures len { IfOk result (λ b. length b ≡ count) }
{
    match hex::decode(alloc, text) {
        Ok(bytes) => bits_in(alloc, bytes.as_slice(), count),
        Err(FromHexError::OutOfMemory) => Err(FormError::Memory),
        Err(_) => Err(FormError::kind(alloc)),
    }
}
