//! Telegrams and radio messages.

use super::{FromCanonical, Scanner};
use etcs_bits::Identity;
use etcs_radio::{Message, MovementMessage, PositionMessage};
use etcs_telegram::{Header, Telegram};

impl FromCanonical for Telegram {
    fn parse(line: &mut Scanner<'_>) -> Option<Telegram> {
        let dup = line.member("m_dup")?;
        let counter = line.member("m_mcount")?;
        let version = line.member("m_version")?;
        let position = line.member("n_pig")?;
        let total = line.member("n_total")?;
        let group = line.member("nid_bg")?;
        let country = line.member("nid_c")?;
        let packets = line.member("packets")?;
        let linked = line.member("q_link")?;
        let size = line.member("user_bits")?;
        line.mark()?;
        let header = Header {
            version,
            position,
            total,
            dup,
            counter,
            identity: Identity { country, group },
            linked,
        };
        Some(Telegram {
            size,
            header,
            packets,
        })
    }
}

impl FromCanonical for MovementMessage {
    fn parse(line: &mut Scanner<'_>) -> Option<MovementMessage> {
        let ack = line.member("m_ack")?;
        let group = line.member("nid_bg")?;
        let country = line.member("nid_c")?;
        let _number: u32 = line.member("nid_message")?;
        let packets = line.member("packets")?;
        let time = line.member("t_train")?;
        line.mark()?;
        MovementMessage::new(time, ack, Identity { country, group }, packets).ok()
    }
}

impl FromCanonical for PositionMessage {
    fn parse(line: &mut Scanner<'_>) -> Option<PositionMessage> {
        let engine = line.member("nid_engine")?;
        let _number: u32 = line.member("nid_message")?;
        let packets = line.member("packets")?;
        let time = line.member("t_train")?;
        line.mark()?;
        PositionMessage::new(time, engine, packets).ok()
    }
}

// The first key says which message it is.
impl FromCanonical for Message {
    fn parse(line: &mut Scanner<'_>) -> Option<Message> {
        match line.rest {
            [_, _, b'm', ..] => Some(Message::Movement(FromCanonical::parse(line)?)),
            _ => Some(Message::Position(FromCanonical::parse(line)?)),
        }
    }
}
