//! Decodes hexadecimal text: 32 digits at a time, and the last ones by two tables. Any other text goes to
//! `hex`, which reports the error.

ghost use Rattle.std.specs.Prelude.{ℕ, ◌≡◌, ◌↔◌, ◌+◌, ◌*◌, ◌<◌, ◌≤◌, true, false, length, get_or, map, ◌%◌, ◌⊎◌, IsTrue, IfOk, IfErr, Ok, MatchResult};
ghost use Rattle.std.specs.Option.{unwrap_or};
ghost use Rattle.hex.specs.Hex.{decode_of, decode_pairs, decode_sized, hex_digit_value, is_hex_digit, pair_value};
ghost use Rattle.etcs_digits.specs.Hexadecimal.{IsHexadecimal};
ghost use Rattle.hex.specs.declared.error.FromHexError.TheVariants.{OddLength, OutOfMemory};

use hex::FromHexError;
use std::alloc::Global;
use std::simd::prelude::*;

// The value of each byte as a hexadecimal digit times `unit`, or 256 if it is no digit.
macro_rules! table {
    ($unit:literal) => {
        table!($unit: 256 256 256 256 256 256 256 256 256 256 256 256 256 256 256 256)
    };
    ($unit:literal: $($none:literal)*) => {
        [
            $($none, $none, $none,)*
            0, $unit, 2 * $unit, 3 * $unit, 4 * $unit, 5 * $unit, 6 * $unit, 7 * $unit,
            8 * $unit, 9 * $unit, 256, 256, 256, 256, 256, 256,
            256, 10 * $unit, 11 * $unit, 12 * $unit, 13 * $unit, 14 * $unit, 15 * $unit, 256,
            256, 256, 256, 256, 256, 256, 256, 256,
            $($none,)*
            256, 10 * $unit, 11 * $unit, 12 * $unit, 13 * $unit, 14 * $unit, 15 * $unit, 256,
            256, 256, 256, 256, 256, 256, 256, 256,
            $($none, $none, $none, $none, $none, $none, $none, $none, $none,)*
        ]
    };
}

static HIGH: [u16; 256] = table!(16);

static LOW: [u16; 256] = table!(1);

// The number of bytes that are decoded at once, from twice as many digits.
const BLOCK: usize = 16;

// The value of each digit, and 255 for a byte that is no digit.
#[inline(always)]
fn worth(text: u8x16) -> u8x16
    ensures { result ≡ map (λ c. unwrap_or (hex_digit_value c) 255) text }
{
    let digit = text - u8x16::splat(b'0');
    let letter = (text | u8x16::splat(0x20)) - u8x16::splat(b'a');
    let of_letter = letter
        .simd_lt(u8x16::splat(6))
        .select(letter + u8x16::splat(10), u8x16::splat(255));
    digit.simd_lt(u8x16::splat(10)).select(digit, of_letter)
}

// The bytes of the first 32 digits, and whether all of these are digits. If not, the bytes are meaningless.
#[inline(always)]
fn block(text: &[u8]) -> (u8x16, bool)
    requires { 32 ≤ length text.now }
    ensures len { length result.0 ≡ 16 }
    ensures bytes { IsTrue result.1 → (j place : ℕ) → j < 16
        → pair_value (get_or text.now (2 * j) 0) (get_or text.now (2 * j + 1) 0) place ≡ Ok (get_or result.0 j 0) }
{
    let front = worth(u8x16::from_slice(text));
    let back = worth(u8x16::from_slice(&text[BLOCK..]));
    let (high, low) = front.deinterleave(back);
    let are_digits = (high | low).simd_lt(u8x16::splat(16)).all();
    ((high << u8x16::splat(4)) | low, are_digits)
}

// Writes the bytes that pairs of digits spell. `false` is inconclusive. One test after the last block covers
// all remaining digits: a byte that is no digit sets a high bit of `seen`.
#[inline(always)]
fn decode_quickly(text: &[u8], out: &mut [u8]) -> bool
    requires { length text.now ≡ 2 * length out.old }
    ensures value { IsTrue result → decode_pairs 0 text.now ≡ Ok out.new }
    ensures len { length out.new ≡ length out.old }
{
    let mut done = 0;
    'sixteens: while BLOCK <= out.len() - done {
        let (bytes, are_digits) = block(&text[2 * done..]);
        if !are_digits {
            return false;
        }
        bytes.copy_to_slice(&mut out[done..]);
        done += BLOCK;
    }
    let mut seen = 0u16;
    'bytes: for i in done..out.len() {
        let byte = HIGH[text[2 * i] as usize] | LOW[text[2 * i + 1] as usize];
        seen |= byte;
        out[i] = (byte % 256) as u8;
    }
    seen < 256
}

// Whether a byte is a hexadecimal digit, of either case.
fn is_digit(byte: u8) -> bool
    ensures { result ≡ is_hex_digit byte }
{
    matches!(byte, b'0'..=b'9' | b'A'..=b'F' | b'a'..=b'f')
}

/// Whether the text is an even number of hexadecimal digits, of either case.
pub fn is_hexadecimal(text: &[u8]) -> bool
    ensures { IsTrue result ↔ IsHexadecimal text.now }
{
    text.len() % 2 == 0 && text.iter().all(|&byte| is_digit(byte))
}

/// Writes the bytes that pairs of hexadecimal digits spell, in upper or lower case, the high four bits
/// first. Returns whether the text has only digits. If not, the content of `out` is unspecified.
#[inline]
pub fn decode(text: &[u8], out: &mut [u8]) -> bool
    requires { length text.now ≡ 2 * length out.old }
    ensures { MatchResult (decode_sized text.now (length out.old))
        (λ bytes. (result ≡ true) × (out.new ≡ bytes))
        (λ e. result ≡ false) }
{
    if decode_quickly(text, out) {
        return true;
    }
    hex::decode_to_slice(text, out).is_ok()
}

/// The bytes that pairs of hexadecimal digits spell, in upper or lower case, the high four bits first.
///
/// The errors are the same as for [`hex::decode`]. An empty text and a text of odd length allocate nothing. A
/// text with a byte that is no digit may allocate its bytes twice.
pub fn decode_to_vec(alloc: Global, text: &[u8]) -> Result<Vec<u8>, FromHexError>
    ensures ok { IfOk result (λ bytes. decode_of text.now ≡ Ok bytes.items) }
    ensures err { IfErr result (λ e. (e ≡ OutOfMemory) ⊎ (decode_of text.now ≡ Err e)) }
    ensures odd { length text.now % 2 ≡ 1 → result ≡ Err OddLength }
    ensures memory { result ≡ Err OutOfMemory → 0 < length text.now }
{
    if text.len() % 2 != 0 {
        return Err(FromHexError::OddLength);
    }
    if text.is_empty() {
        return Ok(Vec::new(alloc));
    }
    let mut out = vec![in alloc; 0u8; text.len() / 2]?;
    if decode_quickly(text, out.as_mut_slice()) {
        return Ok(out);
    }
    hex::decode(alloc, text)
}
