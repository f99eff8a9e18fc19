//! `Telegram`: a telegram as a record of its size, header and packets.

use crate::header::Header;
use crate::size::Size;
use etcs_packet::TrackPacket;
use std::marker::Model;

/// What a balise sends: a header, packets, and the end mark, packet 255 (SUBSET-026, 8.4.2). The
/// fill after the end mark carries no information and is not kept.
///
/// Contracts see its packets as a list.
#[derive(Debug, Drop)]
pub struct Telegram {
    /// How many user bits it has.
    pub size: Size,
    /// The header, which comes first.
    pub header: Header,
    /// The packets after the header, in order, without the end mark.
    pub packets: Vec<TrackPacket>,
}

impl Model for Telegram {
    ghost use Rattle.etcs_telegram.specs.Record.{Telegram};

    ghost Value = { Telegram };

    ghost view = { λ t. record { size = t.size; header = t.header; packets = t.packets.items } };
}
