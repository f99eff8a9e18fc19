//! What several tests use: digits, what they spell, and what a train reads of it. It allocates only what the
//! libraries allocate, and lists and texts of errors.

use crate::halt::Halt;
use etcs_group::{Controlled, Group, assemble};
use etcs_packet::Run;
use etcs_telegram::{Telegram, from_hex};
use std::alloc::Global;

/// The first digits of telegrams of one group, after which all bits are ones: a single balise, and the two of
/// a pair with counters 255, 7 and 8.
pub const ALONE: &str = "a1007f802000";

pub const FIRST: &str = "a102ff802000";

pub const SECOND: &str = "a1137f802000";

pub const FIRST_7: &str = "a10283802000";

pub const SECOND_8: &str = "a11304002000";

/// The first digits of the first telegram of a pair, with a packet 21 for the reverse direction.
pub const WITH_GRADIENT: &str = "a102ff802000c5401b40001fe0";

/// The short telegram that begins with these digits, at most 52, after which all bits are ones.
pub fn telegram(alloc: Global, front: &str) -> Result<Telegram, Halt> {
    let mut text = [b'f'; 54];
    'digits: for (digit, given) in text.iter_mut().zip(front.as_bytes()) {
        *digit = *given;
    }
    text[52] = b'c';
    text[53] = b'0';
    Ok(from_hex(alloc, &text)?)
}

/// The telegrams that begin with these digits.
pub fn telegrams(alloc: Global, fronts: &[&str]) -> Result<Vec<Telegram>, Halt> {
    let mut list = Vec::new(alloc);
    'fronts: for front in fronts {
        list.push(telegram(alloc, front)?)?;
    }
    Ok(list)
}

/// The group of the telegrams that begin with these digits.
pub fn group(alloc: Global, fronts: &[&str]) -> Result<Group, Halt> {
    Group::new(telegrams(alloc, fronts)?).map_err(|_| Halt::Other)
}

/// The group that has these aspects.
pub fn controlled(alloc: Global, aspects: &[&[&str]]) -> Result<Controlled, Halt> {
    let mut groups = Vec::new(alloc);
    'aspects: for fronts in aspects {
        groups.push(group(alloc, fronts)?)?;
    }
    Controlled::new(groups).map_err(|_| Halt::Other)
}

/// The message of the telegrams that a train read: `ok` and the numbers of the packets, or why there is none.
pub fn message(alloc: Global, run: Run, read: &[&Telegram]) -> Result<String, Halt> {
    match assemble(alloc, run, read) {
        Ok(packets) => {
            let mut text = format!(in alloc; "ok")?;
            'packets: for packet in packets.iter() {
                text = format!(in alloc; "{text} {}", packet.number())?;
            }
            Ok(text)
        }
        Err(why) => Ok(why.to_string(alloc)?),
    }
}
