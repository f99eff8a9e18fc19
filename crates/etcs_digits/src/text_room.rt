//! Functions that place bytes, texts and numbers in a `Vec` whose spare capacity is initialized ahead, so that a
//! member needs only one capacity check. `JsonLineWriter` is written with them.

ghost use Rattle.std.specs.Prelude.{◌≡◌, ◌+◌, ◌<◌, ◌≤◌, ◌++◌, ◌∷◌, [], OnErr, OnOk, decimal, length, take, vec_capacity, vec_len};
ghost use Rattle.json.specs.Filled.{Placed};
ghost use Rattle.etcs_digits.specs.JsonLineWriter.{quoted_text};

use crate::decimal::place_decimal;
use std::alloc::AllocError;
use std::simd::Simd;

// Zeros that are appended at once. Most lines are not longer.
static ZEROS: [u8; 2048] = [0; 2048];

// Appends at least `count` zeros, a block at a time.
fn fill(bytes: &mut Vec<u8>, count: usize)
    requires { vec_len bytes.old + count ≤ vec_capacity bytes.old }
    ensures front { take (vec_len bytes.old) bytes.new.items ≡ bytes.old.items }
    ensures len { vec_len bytes.old + count ≤ vec_len bytes.new }
{
    let end = bytes.len() + count;
    'filling: while bytes.len() < end {
        let room = bytes.capacity() - bytes.len();
        if bytes
            .extend_from_slice(&ZEROS[..room.min(ZEROS.len())])
            .is_err()
        {
            unreachable!();
        }
    }
}

#[cold]
#[inline(never)]
fn grow(bytes: &mut Vec<u8>, count: usize) -> Result<(), AllocError>
    ensures front { take (vec_len bytes.old) bytes.new.items ≡ bytes.old.items }
    ensures len { OnOk result (vec_len bytes.old + count ≤ vec_len bytes.new) }
    ensures full { OnErr result (vec_capacity bytes.old < vec_len bytes.old + count) }
{
    bytes.reserve(count)?;
    fill(bytes, count);
    Ok(())
}

// Makes `count` initialized bytes available after the first `len`.
#[inline(always)]
pub(crate) fn make_ready(bytes: &mut Vec<u8>, len: usize, count: usize) -> Result<(), AllocError>
    requires { len ≤ vec_len bytes.old }
    ensures text { take len bytes.new.items ≡ take len bytes.old.items }
    ensures within { len ≤ vec_len bytes.new }
    ensures ready { OnOk result (len + count ≤ vec_len bytes.new) }
    ensures full { OnErr result (vec_capacity bytes.old < len + count) }
{
    let ready = bytes.len() - len;
    if count <= ready {
        return Ok(());
    }
    grow(bytes, count - ready)
}

// Writes one byte at an index, and returns the next index.
#[inline(always)]
pub(crate) fn place_byte(buf: &mut [u8], at: usize, byte: u8) -> usize
    requires { at < length buf.old }
    ensures { Placed buf.old buf.new at (byte ∷ []) result }
{
    buf[at] = byte;
    at + 1
}

// Writes a text by its first N bytes and its last N, which may overlap: two loads and two stores.
#[inline(always)]
fn place_ends<const N: usize>(buf: &mut [u8], at: usize, text: &[u8]) -> usize
    requires fits { at + length text.now ≤ length buf.old }
    requires covers { (N ≤ length text.now) × (length text.now ≤ N + N) }
    ensures { Placed buf.old buf.new at text.now result }
{
    let last = text.len() - N;
    Simd::<u8, N>::from_slice(text).copy_to_slice(&mut buf[at..]);
    Simd::<u8, N>::from_slice(&text[last..]).copy_to_slice(&mut buf[at + last..]);
    at + text.len()
}

// Writes a text at an index, and returns the index after it. Most keys have 4 to 16 bytes.
#[inline(always)]
pub(crate) fn place_text(buf: &mut [u8], at: usize, text: &[u8]) -> usize
    requires { at + length text.now ≤ length buf.old }
    ensures { Placed buf.old buf.new at text.now result }
{
    let len = text.len();
    if 4 <= len && len <= 8 {
        return place_ends::<4>(buf, at, text);
    }
    if 8 < len && len <= 16 {
        return place_ends::<8>(buf, at, text);
    }
    buf[at..at + len].copy_from_slice(text);
    at + len
}

// Writes a text in quotes and then a byte, and returns the index after them.
#[inline(always)]
pub(crate) fn place_quoted(buf: &mut [u8], at: usize, text: &[u8], close: u8) -> usize
    requires { at + length text.now + 3 ≤ length buf.old }
    ensures { Placed buf.old buf.new at (quoted_text text.now close) result }
{
    let at = place_byte(buf, at, b'"');
    let at = place_text(buf, at, text);
    let at = place_byte(buf, at, b'"');
    place_byte(buf, at, close)
}

// Writes a number and a comma at an index, and returns the index after them.
#[inline(always)]
pub(crate) fn place_number(buf: &mut [u8], at: usize, n: u64) -> usize
    requires { at + 21 ≤ length buf.old }
    ensures { Placed buf.old buf.new at (decimal n ++ 44 ∷ []) result }
{
    let at = place_decimal(buf, at, n);
    place_byte(buf, at, b',')
}
