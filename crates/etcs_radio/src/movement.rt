//! `MovementMessage`: message 3, the movement authority.

ghost use Rattle.std.specs.Prelude.{◌≡◌, ◌↔◌, true, IfOk, IfErr, IsOk};
ghost use Rattle.etcs_radio.specs.Required.{has_authority};

use etcs_bits::{Identity, Plain};
use etcs_packet::TrackPacket;
use std::marker::Model;

/// A movement authority that a train gets by radio: message 3. It holds at least one packet 15
/// (SUBSET-026, 8.6). Contracts see its packets as a list.
#[derive(Debug, Drop)]
pub struct MovementMessage {
    time: Plain<32>,
    ack: bool,
    lrbg: Identity,
    packets: Vec<TrackPacket>,
}

impl Model for MovementMessage {
    ghost use Rattle.std.specs.Prelude.{◌≡◌, true};
    ghost use Rattle.etcs_radio.specs.Record.{Movement};
    ghost use Rattle.etcs_radio.specs.Required.{has_authority};

    ghost Value = { Movement };

    ghost view = { λ m. record {
      time = m.time;
      ack = m.ack;
      lrbg = m.lrbg;
      packets = m.packets.items;
    } };

    ghost invariant = { λ m. has_authority m.packets.items ≡ true };
}

// Whether a packet 15 is among these.
fn is_there(packets: &[TrackPacket]) -> bool
    ensures { result ≡ has_authority packets.now }
{
    packets.iter().any(|packet| packet.number() == 15)
}

impl MovementMessage {
    /// The message of these parts: T_TRAIN, M_ACK, NID_LRBG and the packets. Takes no memory.
    ///
    /// The error gives the packets back: packet 15 is not among them.
    pub fn new(
        time: Plain<32>,
        ack: bool,
        lrbg: Identity,
        packets: Vec<TrackPacket>,
    ) -> Result<MovementMessage, Vec<TrackPacket>>
        ensures ok { IfOk result (λ m. m ≡ record {
          time = time;
          ack = ack;
          lrbg = lrbg;
          packets = packets.items;
        }) }
        ensures made { IsOk result ↔ (has_authority packets.items ≡ true) }
        ensures err { IfErr result (λ back. back ≡ packets) }
    {
        if !is_there(packets.as_slice()) {
            return Err(packets);
        }
        Ok(MovementMessage {
            time,
            ack,
            lrbg,
            packets,
        })
    }

    /// T_TRAIN, 32 bits: the time of the train's clock, in units of 10 ms.
    pub fn time(&self) -> Plain<32>
        ensures { result ≡ self.now.time }
    {
        self.time
    }

    /// M_ACK, 1 bit: whether the train must acknowledge the message.
    pub fn ack(&self) -> bool
        ensures { result ≡ self.now.ack }
    {
        self.ack
    }

    /// NID_LRBG, 24 bits: the group that distances are counted from.
    pub fn lrbg(&self) -> Identity
        ensures { result ≡ self.now.lrbg }
    {
        self.lrbg
    }

    /// The packets, in order. A packet 15 is among them.
    pub fn packets(&self) -> &[TrackPacket]
        ensures packets { result.now ≡ self.now.packets }
        ensures there { has_authority result.now ≡ true }
    {
        self.packets.as_slice()
    }
}
