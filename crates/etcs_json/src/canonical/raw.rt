//! Packets that are kept as bits.

use super::{FromCanonical, Scanner};
use crate::packets::body_text::body_in;
use etcs_bits::Bits;
use etcs_packet::RawPacket;
use etcs_radio::RawTrainPacket;

// The most bits of a body.
const MOST: u32 = 8170;

// Parses the members `body` and `l_packet`. `head` is the number of bits before the body.
fn body_of(line: &mut Scanner<'_>, head: u32) -> Option<Bits> {
    line.key("body")?;
    let text = line.text()?;
    let length: u32 = line.member("l_packet")?;
    let count = length.checked_sub(head)?;
    if MOST < count {
        return None;
    }
    body_in(line.alloc, text, count as usize).ok()
}

impl FromCanonical for RawPacket {
    fn parse(line: &mut Scanner<'_>) -> Option<RawPacket> {
        let body = body_of(line, 23)?;
        let number: u32 = line.member("nid_packet")?;
        let dir = line.member("q_dir")?;
        line.mark()?;
        RawPacket::new(u8::try_from(number).ok()?, dir, body).ok()
    }
}

impl FromCanonical for RawTrainPacket {
    fn parse(line: &mut Scanner<'_>) -> Option<RawTrainPacket> {
        let body = body_of(line, 21)?;
        let number: u32 = line.member("nid_packet")?;
        line.mark()?;
        RawTrainPacket::new(u8::try_from(number).ok()?, body).ok()
    }
}
