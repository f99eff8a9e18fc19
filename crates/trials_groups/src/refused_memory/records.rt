//! Bits, packets, telegrams and messages: they are read and written as ever, or memory ran out. Then nothing is
//! appended, and no cursor has moved.

use super::{Answer, expect_answers};
use crate::halt::Halt;
use etcs_bits::{BitSlice, Bits, Cursor, DecodeError, Memory};
use etcs_packet::{Stop, next_view, read_packets, write_packets};
use hex::FromHexError;
use std::alloc::Global;

/// Packet 21 with one further element, and the end mark: 78 bits and 8.
const GRADIENT: [u8; 11] = [
    0x15, 0x40, 0x9c, 0x83, 0xe8, 0x82, 0x84, 0x00, 0x50, 0x0f, 0xfc,
];

/// A telegram with an authority and both profiles.
const PROFILES: &str = "\
a1007f802000c31024a5007fe007d002a813a000105080647f8da0560000140029c43f81ffffffffffffffffffffffffffff\
ffffffffffffffffffffffffffffffffffffffffffffffffffffffffffffffffffffffffffffffffffffffffffffffffffff\
fffffffc";

/// A position report of engine 1 with a packet 44, whose body is kept as bits.
const REPORT: &str = "8807000000320000004000e480200081f450014002830832c00ed280";

// Whether the bits have `added` more than `before` if the call succeeded. After lack of memory they must have as
// many as before.
fn is_appended(bits: &Bits, before: usize, added: usize, done: &Result<(), Memory>) -> Answer {
    match done {
        Ok(()) => Ok(bits.len() == before.saturating_add(added)),
        Err(_) if bits.len() == before => Err(Halt::Memory),
        Err(_) => Ok(false),
    }
}

fn number(alloc: Global) -> Answer {
    let mut bits = Bits::from_bytes(alloc, &GRADIENT, 64)?;
    let done = bits.push_num(11, 0x59a);
    is_appended(&bits, 64, 11, &done)
}

fn piece(alloc: Global) -> Answer {
    let piece = BitSlice::of_bytes(&GRADIENT, 86).to_bits(alloc)?;
    let mut bits = Bits::new(alloc);
    let done = bits.push_bits(&piece);
    is_appended(&bits, 0, 86, &done)
}

fn copy(alloc: Global) -> Answer {
    let bytes = Bits::from_bytes(alloc, &GRADIENT, 86)?.to_bytes(alloc)?;
    Ok(bytes.as_slice() == GRADIENT.as_slice())
}

// The packets of the bits, written again.
fn packets(alloc: Global) -> Answer {
    let slice = BitSlice::of_bytes(&GRADIENT, 86);
    let packets = read_packets(alloc, &mut Cursor::over(slice), Stop::Telegram)?;
    let mut bits = Bits::new(alloc);
    let done = write_packets(packets.as_slice(), &mut bits);
    is_appended(&bits, 0, 78, &done)
}

// Whether a cursor stands after packet 21 that was read. After lack of memory it must be at its beginning.
fn stands<T>(read: &Result<T, DecodeError>, cur: &Cursor<'_>) -> Answer {
    match read {
        Ok(_) => Ok(cur.at() == 78),
        Err(DecodeError::Memory) if cur.at() == 0 => Err(Halt::Memory),
        Err(_) => Ok(false),
    }
}

fn view(alloc: Global) -> Answer {
    let mut cur = Cursor::over(BitSlice::of_bytes(&GRADIENT, 86));
    let read = next_view(alloc, &mut cur, Stop::Telegram);
    stands(&read, &cur)
}

fn list(alloc: Global) -> Answer {
    let mut cur = Cursor::over(BitSlice::of_bytes(&GRADIENT, 86));
    let read = read_packets(alloc, &mut cur, Stop::Telegram);
    stands(&read, &cur)
}

fn telegram(alloc: Global) -> Answer {
    let telegram = etcs_telegram::from_hex(alloc, PROFILES.as_bytes())?;
    let bits = etcs_telegram::encode(alloc, &telegram)?;
    if bits.len() != 830 {
        return Ok(false);
    }
    let again = etcs_telegram::decode(alloc, &bits)?;
    Ok(etcs_telegram::to_hex(alloc, &again)?.as_str() == PROFILES)
}

fn message(alloc: Global) -> Answer {
    let message = etcs_radio::from_hex(alloc, REPORT.as_bytes())?;
    let bytes = etcs_radio::encode(alloc, &message)?;
    let again = etcs_radio::decode(alloc, bytes.as_slice())?;
    Ok(etcs_radio::to_hex(alloc, &again)?.as_str() == REPORT)
}

// Two digits, a letter that is no digit, and a digit. Memory is requested twice: for the bytes that the table
// gives, and by `hex`.
fn no_digits(alloc: Global) -> Answer {
    match etcs_digits::decode_to_vec(alloc, b"0ag9") {
        Ok(_) => Ok(false),
        Err(FromHexError::OutOfMemory) => Err(Halt::Memory),
        Err(why) => Ok(why == FromHexError::InvalidHexCharacter { c: 'g', index: 2 }),
    }
}

pub fn answers(alloc: Global) -> [Answer; 9] {
    [
        number(alloc),
        piece(alloc),
        copy(alloc),
        packets(alloc),
        view(alloc),
        list(alloc),
        telegram(alloc),
        message(alloc),
        no_digits(alloc),
    ]
}

#[test]
fn records_are_read_and_written_or_memory_ran_out(rt: HostRuntime) {
    expect_answers(&rt, &answers(rt.alloc()));
}
