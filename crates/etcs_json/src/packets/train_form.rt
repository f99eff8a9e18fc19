//! The JSON form of `TrainPacket`, a packet from train to track, which its number decides.

ghost use Rattle.etcs_json.specs.TrainPackets.{train_packet};

use crate::Form;
use crate::packets::report_form::{read_one, read_two};
use crate::reading::read_first;
use crate::record::{ObjectForm, prove_allowed};
use etcs_bits::{Memory, Ranged};
use etcs_radio::TrainPacket;
use etcs_schema::{FormError, JsonValue, TokenWriter};
use std::alloc::Global;

#[tactic(auto, using(crate::proofs::SumLemmas::with_one_read, crate::proofs::SumLemmas::with_two_read))]
impl ObjectForm for TrainPacket {
    ghost form = { train_packet };

    #[tactic(auto, using(crate::proofs::LawLemmas::train_read))]
    fn prove_read_back(&self) {
        prove_allowed(self);
    }

    #[tactic(auto, using(crate::proofs::SumLemmas::report_to))]
    fn write_object<M: TokenWriter>(&self, out: &mut M) -> Result<(), Memory> {
        match self {
            TrainPacket::Report(report) => report.write_object(out),
            TrainPacket::Raw(packet) => packet.write_object(out),
        }
    }

    fn read_form<N: JsonValue>(alloc: Global, node: &N) -> Result<Self, FormError> {
        let number: Ranged<8, 254, 256> = read_first(alloc, node, "nid_packet")?;
        match number.number() {
            0 => Ok(TrainPacket::Report(read_one(alloc, node)?)),
            1 => Ok(TrainPacket::Report(read_two(alloc, node)?)),
            _ => Ok(TrainPacket::Raw(Form::read_json(alloc, node)?)),
        }
    }
}
