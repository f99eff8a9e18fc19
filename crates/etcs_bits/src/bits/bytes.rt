//! Functions for bits in a byte slice, eight in each byte, most significant first: reading a number or a bit,
//! appending bits, cutting. `Bits` and `BitSlice` are made of them. No types.

ghost use Rattle.std.specs.Prelude.{◌≡◌, ◌+◌, ◌-◌, ◌*◌, ◌/◌, ◌%◌, ◌^◌, ◌<◌, ◌≤◌, ◌++◌, length, take, drop, slice_get, slice_index, vec_len, Some, IfOk, OnOk, OnErr};
ghost use Rattle.etcs_bits.specs.bits.Number.{num, num_of_bits, bits_of_bytes};
ghost use Rattle.etcs_bits.specs.bits.Packed.{IsPacked};

use std::alloc::{AllocError, Global};

// Eight bytes from byte `first`, as one number. The compiler makes one load of it.
#[inline(always)]
fn word_at(bytes: &[u8], first: usize) -> u64
    requires { first + 8 ≤ length bytes.now }
    ensures { result ≡ num_of_bits (bits_of_bytes (take 8 (drop first bytes.now))) }
{
    u64::from_be_bytes([
        bytes[first],
        bytes[first + 1],
        bytes[first + 2],
        bytes[first + 3],
        bytes[first + 4],
        bytes[first + 5],
        bytes[first + 6],
        bytes[first + 7],
    ])
}

// At most five bytes as one number.
fn few_bytes(bytes: &[u8]) -> u64
    requires { length bytes.now ≤ 5 }
    ensures { result ≡ num_of_bits (bits_of_bytes bytes.now) }
{
    let mut total = 0u64;
    for byte in bytes {
        total = total * 256 + *byte as u64;
    }
    total
}

// The number of a field of fewer than eight bytes.
#[inline(never)]
fn num_of_few(bytes: &[u8], from: usize, width: u32) -> u64
    requires low { 1 ≤ width }
    requires high { width ≤ 32 }
    requires inside { from + width ≤ 8 * length bytes.now }
    ensures { result ≡ num_of_bits (take width (drop from (bits_of_bytes bytes.now))) }
{
    let first = from / 8;
    let skipped = (from % 8) as u32;
    let count = (skipped + width + 7) / 8;
    let block = few_bytes(&bytes[first..first + count as usize]);
    (block >> (8 * count - skipped - width)) & ((1 << width) - 1)
}

// The number that the `width` bits from place `from` spell. Near the end it is in the last eight bytes,
// so one load serves there too.
#[inline(always)]
pub fn num_at(bytes: &[u8], from: usize, width: u32) -> u64
    requires low { 1 ≤ width }
    requires high { width ≤ 32 }
    requires inside { from + width ≤ 8 * length bytes.now }
    ensures { result ≡ num_of_bits (take width (drop from (bits_of_bytes bytes.now))) }
{
    if bytes.len() < 8 {
        return num_of_few(bytes, from, width);
    }
    let first = (from / 8).min(bytes.len() - 8);
    let skipped = (from - 8 * first) as u32;
    (word_at(bytes, first) << skipped) >> (64 - width)
}

// That number, where 64 bits or more follow the place.
#[inline(always)]
pub fn num_far(bytes: &[u8], from: usize, width: u32) -> u64
    requires low { 1 ≤ width }
    requires high { width ≤ 32 }
    requires far { from + 64 ≤ 8 * length bytes.now }
    ensures { result ≡ num_of_bits (take width (drop from (bits_of_bytes bytes.now))) }
{
    let skipped = (from % 8) as u32;
    (word_at(bytes, from / 8) << skipped) >> (64 - width)
}

// The bit at place `i`.
#[inline(always)]
pub fn bit_at(bytes: &[u8], i: usize) -> bool
    requires { i < 8 * length bytes.now }
    ensures { slice_get (bits_of_bytes bytes.now) i ≡ Some result }
{
    (bytes[i / 8] >> (7 - i % 8)) & 1 == 1
}

// A copy of some bytes. A copy of none takes no memory.
pub fn copy_of(alloc: Global, bytes: &[u8]) -> Result<Vec<u8>, AllocError>
    ensures bytes { IfOk result (λ v. v.items ≡ bytes.now) }
    ensures memory { OnErr result (0 < length bytes.now) }
{
    let mut copy = Vec::with_capacity(alloc, bytes.len())?;
    copy.extend_from_slice(bytes)?;
    Ok(copy)
}

// Appends the first `count` of some bytes. Each count has an arm of its own, in which the compiler
// knows how many bytes to copy.
#[inline(always)]
fn append_few(bytes: &mut Vec<u8>, block: &[u8], count: usize) -> Result<(), AllocError>
    requires { (count ≤ length block.now) × (5 ≤ length block.now) }
    ensures ok { OnOk result (bytes.new.items ≡ bytes.old.items ++ take count block.now) }
    ensures err { OnErr result (bytes.new.items ≡ bytes.old.items) }

    // To append nothing takes no memory.
    ensures memory { OnErr result (0 < count) }
{
    match count {
        0 => Ok(()),
        1 => bytes.extend_from_slice(&block[..1]),
        2 => bytes.extend_from_slice(&block[..2]),
        3 => bytes.extend_from_slice(&block[..3]),
        4 => bytes.extend_from_slice(&block[..4]),
        5 => bytes.extend_from_slice(&block[..5]),
        _ => bytes.extend_from_slice(&block[..count]),
    }
}

// Appends the bits of `n` to whole bytes, and zeros up to a whole byte.
#[inline(never)]
fn append_whole(bytes: &mut Vec<u8>, width: u32, n: u64) -> Result<(), AllocError>
    requires low { 1 ≤ width }
    requires high { width ≤ 32 }
    requires fits { n < 2 ^ width }
    ensures ok { OnOk result (bits_of_bytes bytes.new.items
        ≡ (bits_of_bytes bytes.old.items ++ num width n) ++ num (8 * ((width + 7) / 8) - width) 0) }
    ensures err { OnErr result (bytes.new.items ≡ bytes.old.items) }
{
    let count = (width + 7) / 8;
    let block = (n << (64 - width)).to_be_bytes();
    append_few(bytes, &block, count as usize)?;
    Ok(())
}

// Appends the bits of `n` after the first `used` bits of the last byte, and zeros up to a whole
// byte.
#[inline(never)]
fn append_within(bytes: &mut Vec<u8>, used: u32, width: u32, n: u64) -> Result<(), AllocError>
    requires positive { 1 ≤ used }
    requires within { used ≤ 7 }
    requires low { 1 ≤ width }
    requires high { width ≤ 32 }
    requires fits { n < 2 ^ width }
    requires last { 1 ≤ vec_len bytes.old }
    requires zeros { slice_index bytes.old.items (vec_len bytes.old - 1) % 2 ^ (8 - used) ≡ 0 }
    ensures ok { OnOk result (bits_of_bytes bytes.new.items
        ≡ (take (8 * (vec_len bytes.old - 1) + used) (bits_of_bytes bytes.old.items) ++ num width n)
        ++ num (8 * ((used + width + 7) / 8) - used - width) 0) }
    ensures err { OnErr result (bytes.new.items ≡ bytes.old.items) }

    // Where the last byte has room, no memory is asked for.
    ensures memory { OnErr result (8 < used + width) }
{
    let last = bytes.len() - 1;
    let count = (used + width + 7) / 8;
    let block = ((bytes[last] as u64) << 56 | n << (64 - width - used)).to_be_bytes();
    append_few(bytes, &block[1..], count as usize - 1)?;
    bytes[last] = block[0];
    Ok(())
}

// Appends the bits of `n` after the first `used` bits of the last byte, which has room for them. That
// asks for no memory.
#[inline(always)]
fn append_in_last(bytes: &mut Vec<u8>, used: u32, width: u32, n: u64)
    requires positive { 1 ≤ used }
    requires low { 1 ≤ width }
    requires high { used + width ≤ 8 }
    requires fits { n < 2 ^ width }
    requires last { 1 ≤ vec_len bytes.old }
    requires zeros { slice_index bytes.old.items (vec_len bytes.old - 1) % 2 ^ (8 - used) ≡ 0 }
    ensures { bits_of_bytes bytes.new.items
        ≡ (take (8 * (vec_len bytes.old - 1) + used) (bits_of_bytes bytes.old.items) ++ num width n)
        ++ num (8 * ((used + width + 7) / 8) - used - width) 0 }
{
    let place = bytes.len() - 1;
    let shift = 64 - width - used;
    let word = (bytes[place] as u64) << 56 | n << shift;
    bytes[place] = word.to_be_bytes()[0];
}

// Appends the bits of `n` after the first `len` bits. What may ask for memory stands apart, so that
// bits within the last byte save no registers.
#[inline]
pub fn append(bytes: &mut Vec<u8>, len: usize, width: u32, n: u64) -> Result<(), AllocError>
    requires packed { IsPacked bytes.old.items len }
    requires room { len + width < 2 ^ 64 }
    requires low { 1 ≤ width }
    requires high { width ≤ 32 }
    requires fits { n < 2 ^ width }
    ensures packed { OnOk result (IsPacked bytes.new.items (len + width)) }
    ensures bits { OnOk result (take (len + width) (bits_of_bytes bytes.new.items)
        ≡ take len (bits_of_bytes bytes.old.items) ++ num width n) }
    ensures err { OnErr result (bytes.new.items ≡ bytes.old.items) }

    // Where the last byte has room, no memory is asked for.
    ensures memory { 0 < len % 8 → OnErr result (8 < len % 8 + width) }
{
    let used = (len % 8) as u32;
    if used == 0 {
        append_whole(bytes, width, n)?;
        Ok(())
    } else if used + width <= 8 {
        append_in_last(bytes, used, width, n);
        Ok(())
    } else {
        append_within(bytes, used, width, n)?;
        Ok(())
    }
}

// Keeps the first `len` bits. Zeros fill the last byte.
pub fn cut(bytes: &mut Vec<u8>, len: usize)
    requires { len ≤ 8 * length bytes.old.items }
    ensures packed { IsPacked bytes.new.items len }
    ensures bits { take len (bits_of_bytes bytes.new.items) ≡ take len (bits_of_bytes bytes.old.items) }
{
    let whole = len / 8;
    let used = (len % 8) as u32;
    if used == 0 {
        bytes.truncate(whole);
    } else {
        bytes.truncate(whole + 1);
        bytes[whole] = (bytes[whole] >> (8 - used)) << (8 - used);
    }
}
