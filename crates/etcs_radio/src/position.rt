//! `PositionMessage`: message 136, the position report.

ghost use Rattle.std.specs.Prelude.{◌≡◌, ◌↔◌, true, IfOk, IfErr, IsOk};
ghost use Rattle.etcs_radio.specs.Required.{has_report};

use crate::train_packet::TrainPacket;
use etcs_bits::Plain;
use std::marker::Model;

/// A position report that a train sends by radio: message 136. It holds at least one packet 0 or 1
/// (SUBSET-026, 8.7). Contracts see its packets as a list.
#[derive(Debug, Drop)]
pub struct PositionMessage {
    time: Plain<32>,
    engine: Plain<24>,
    packets: Vec<TrainPacket>,
}

impl Model for PositionMessage {
    ghost use Rattle.std.specs.Prelude.{◌≡◌, true};
    ghost use Rattle.etcs_radio.specs.Record.{Position};
    ghost use Rattle.etcs_radio.specs.Required.{has_report};

    ghost Value = { Position };

    ghost view = { λ m. record {
      time = m.time;
      engine = m.engine;
      packets = m.packets.items;
    } };

    ghost invariant = { λ m. has_report m.packets.items ≡ true };
}

// Whether a packet 0 or 1 is among these.
fn is_there(packets: &[TrainPacket]) -> bool
    ensures { result ≡ has_report packets.now }
{
    packets.iter().any(|packet| packet.is_report())
}

impl PositionMessage {
    /// The message of these parts: T_TRAIN, NID_ENGINE and the packets. Takes no memory.
    ///
    /// The error gives the packets back: neither packet 0 nor packet 1 is among them.
    pub fn new(
        time: Plain<32>,
        engine: Plain<24>,
        packets: Vec<TrainPacket>,
    ) -> Result<PositionMessage, Vec<TrainPacket>>
        ensures ok { IfOk result (λ m. m ≡ record {
          time = time;
          engine = engine;
          packets = packets.items;
        }) }
        ensures made { IsOk result ↔ (has_report packets.items ≡ true) }
        ensures err { IfErr result (λ back. back ≡ packets) }
    {
        if !is_there(packets.as_slice()) {
            return Err(packets);
        }
        Ok(PositionMessage {
            time,
            engine,
            packets,
        })
    }

    /// T_TRAIN, 32 bits: the time of the train's clock, in units of 10 ms.
    pub fn time(&self) -> Plain<32>
        ensures { result ≡ self.now.time }
    {
        self.time
    }

    /// NID_ENGINE, 24 bits: the number of the equipment on board.
    pub fn engine(&self) -> Plain<24>
        ensures { result ≡ self.now.engine }
    {
        self.engine
    }

    /// The packets, in order. A packet 0 or 1 is among them.
    pub fn packets(&self) -> &[TrainPacket]
        ensures packets { result.now ≡ self.now.packets }
        ensures there { has_report result.now ≡ true }
    {
        self.packets.as_slice()
    }
}
