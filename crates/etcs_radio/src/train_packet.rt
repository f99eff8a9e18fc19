//! `TrainPacket`: any of the packets from train to track.

ghost use Rattle.std.specs.Prelude.{◌≡◌, true, min};
ghost use Rattle.etcs_bits.specs.layout.Results.{Puts};
ghost use Rattle.etcs_bits.specs.layout.Rows.{AreAllowed, join, width};

use crate::raw_train::RawTrainPacket;
use crate::report::Report;
use etcs_bits::{Bits, Cursor, DecodeError, Layout, Memory, Same};
use etcs_packet::scan_number;
use std::alloc::Global;

/// A packet from train to track (SUBSET-026, 7.4.3).
#[derive(Debug, Drop)]
pub enum TrainPacket {
    /// Packets 0 and 1: where the train is.
    Report(Report),
    /// Any other packet. Its body is kept as bits.
    Raw(RawTrainPacket),
}

impl TrainPacket {
    ghost use Rattle.etcs_radio.specs.TrainPacket.{own_rows, train_number, is_report as is_report_packet};

    /// The number of the packet: NID_PACKET.
    pub fn number(&self) -> u8
        ensures { result ≡ train_number self.now }
    {
        match self {
            TrainPacket::Report(report) => report.number(),
            TrainPacket::Raw(packet) => packet.number(),
        }
    }

    /// Whether the packet is a position report: packet 0 or 1.
    pub(crate) fn is_report(&self) -> bool
        ensures { result ≡ is_report_packet self.now }
    {
        match self {
            TrainPacket::Report(_) => true,
            TrainPacket::Raw(_) => false,
        }
    }

    // The types of the packets keep their numbers in range.
    fn is_sound(&self) -> bool
        ensures allowed { AreAllowed (own_rows self.now) }
        ensures always { result ≡ true }
    {
        match self {
            TrainPacket::Report(report) => report.is_allowed(),
            TrainPacket::Raw(packet) => packet.is_allowed(),
        }
    }

    // How many bits the packet has.
    fn own_width(&self) -> u64
        ensures { result ≡ min (width (own_rows self.now)) u64.MAX }
    {
        match self {
            TrainPacket::Report(report) => report.width(),
            TrainPacket::Raw(packet) => packet.width(),
        }
    }

    // Appends the spelling of the packet, whose type keeps it in range.
    fn put_own(&self, out: &mut Bits) -> Result<(), Memory>
        ensures { Puts (join (own_rows self.now)) result out.old out.new }
    {
        // Only for the proof: the packet is allowed.
        let _sound = self.is_sound();
        match self {
            TrainPacket::Report(report) => report.put(out),
            TrainPacket::Raw(packet) => packet.put(out),
        }
    }
}

impl Layout for TrainPacket {
    ghost use Rattle.etcs_radio.specs.RawTrain.{raw_train_grows};
    ghost use Rattle.etcs_radio.specs.TrainPacket.{train_packet};

    ghost format = { train_packet };

    // Position reports grow nowhere.
    ghost grows = { raw_train_grows };

    fn is_allowed(&self) -> bool {
        self.is_sound()
    }

    fn width(&self) -> u64 {
        self.own_width()
    }

    fn put(&self, out: &mut Bits) -> Result<(), Memory> {
        self.put_own(out)
    }

    #[tactic(auto, using(etcs_bits::proofs::GrowthLemmas::never_grows))]
    fn scan(alloc: Global, cur: &mut Cursor<'_>) -> Result<Self, DecodeError> {
        let number = scan_number(cur)?;
        // Only for the proof, a test instead of a match: a failed test shows what the number is not.
        if number == 0 || number == 1 {
            let report = Report::scan_rest(alloc, number, cur)?;
            return Ok(TrainPacket::Report(report));
        }
        Ok(TrainPacket::Raw(RawTrainPacket::scan_rest(alloc, number, cur)?))
    }
}

impl Same for TrainPacket {
    fn same(&self, other: &Self) -> bool {
        match (self, other) {
            (TrainPacket::Report(this), TrainPacket::Report(that)) => this.same(that),
            (TrainPacket::Raw(this), TrainPacket::Raw(that)) => this.same(that),
            _ => false,
        }
    }
}
