//! Records and packets that are spelled by hand, each field as its binary digits.

use etcs_bits::{Bits, Cursor, DecodeError, Layout, Memory};
use std::alloc::Global;

// A packet of each layout, for the nominal direction if it has one: 592 bits.
const KINDS: [&str; 8] = [
    // Packet 0, from bit 0 on.
    "00000000 100101",
    // Packet 5 with three groups, the first and the last in another country: 14.
    "00000101 01 0000010100111 10 111111111111111 1 0110111100 11111111111111 0 00 111111 00010 \
     000000000000001 0 00000000000111 1 01 000000 \
     000001110000100 1 1111111111 00000000000000 1 10 000101",
    // Packet 12: 181.
    "00001100 01 0000001001001 10 1111000 0000000 1111111111 00000 111111111111111 0 0 0 0",
    // Packet 15: 254.
    "00001111 01 0000001000010 00 0000001 0000000000 00000 000000000000001 0 0 0 0",
    // Packet 21: 320.
    "00010101 01 0000000110110 01 000001111101000 1 00000101 00000",
    // Packet 27 with a difference: 374.
    "00011011 01 0000001000111 00 000000000000101 0010100 1 00001 00 0011 0010100 00000",
    // Packet 41 with levels NTC, 0 and NTC: 445.
    "00101001 01 0000001110011 00 000000000001001 001 00010110 000000000000000 00010 \
     000 111111111111111 001 11111111 000000000101000",
    // Packet 254 with nine bits: 560.
    "11111110 01 0000000100000 101001110",
];

/// Appends the digits. What is neither 0 nor 1 parts the fields.
pub fn push_digits(out: &mut Bits, digits: &str) -> Result<(), Memory> {
    for digit in digits.as_bytes() {
        if *digit == b'0' || *digit == b'1' {
            out.push_num(1, u64::from(*digit == b'1'))?;
        }
    }
    Ok(())
}

/// The bits of these digits.
pub fn spelled(alloc: Global, digits: &str) -> Result<Bits, Memory> {
    let mut bits = Bits::new(alloc);
    push_digits(&mut bits, digits)?;
    Ok(bits)
}

/// The bits of `KINDS`, and an end mark.
pub fn all_kinds(alloc: Global) -> Result<Bits, Memory> {
    let mut bits = Bits::new(alloc);
    for digits in KINDS {
        push_digits(&mut bits, digits)?;
    }
    bits.push_num(8, 255)?;
    Ok(bits)
}

/// The record at the beginning of these digits.
pub fn read_one<T: Layout>(alloc: Global, digits: &str) -> Result<T, DecodeError> {
    let bits = spelled(alloc, digits)?;
    T::read(alloc, &mut Cursor::new(&bits))
}

/// The record, `count` times.
pub fn times<T: Copy + Drop>(alloc: Global, record: &T, count: usize) -> Result<Vec<T>, Memory> {
    let mut items = Vec::new(alloc);
    for _ in 0..count {
        items.push(*record)?;
    }
    Ok(items)
}
