//! The JSON form of `RawTrainPacket`, a packet from train to track whose layout is not known. Its body is kept as bits.

ghost use Rattle.std.specs.Prelude.{◌≡◌, length, true};
ghost use Rattle.etcs_radio.specs.FoundRaw.{make_raw};
ghost use Rattle.etcs_radio.specs.TrainNumbers.{is_kept, nid_raw};
ghost use Rattle.etcs_json.specs.RawTrain.{raw_train_packet};
ghost use Rattle.etcs_schema.specs.Codec.{whole};
ghost use Rattle.etcs_schema.specs.Variables.{is_allowed};

use crate::Record;
use crate::members::{NumberMember, check_members, write_members};
use crate::packets::body_form::{packet_length, read_counted_body};
use crate::packets::body_text::BodyMember;
use crate::reading::{AllowedNumbers, read_number};
use crate::record::{InRange, ObjectCodec, prove_allowed, prove_text};
use etcs_bits::{Bits, Memory};
use etcs_radio::RawTrainPacket;
use etcs_schema::{FormError, JsonValue, TokenWriter};
use std::alloc::Global;

// The bits before the body: NID_PACKET and L_PACKET.
const HEAD_BITS: u32 = 21;

impl AllowedNumbers for RawTrainPacket {
    ghost test = { is_allowed nid_raw };

    fn has(number: u64) -> bool {
        RawTrainPacket::has_number(number)
    }
}

impl Record for RawTrainPacket {
    ghost object = { whole raw_train_packet };
}

impl InRange for RawTrainPacket {
    fn prove_in_range(&self) {
        prove_allowed(self);
        prove_text(self);
    }
}

// The packet of parts that were read.
fn packet_of(number: u8, body: Bits) -> RawTrainPacket
    requires { is_kept number (length body) ≡ true }
    ensures { result ≡ make_raw number body }
{
    match RawTrainPacket::new(number, body) {
        Ok(packet) => packet,
        Err(_) => unreachable!("a packet of this number and this length is kept as bits"),
    }
}

#[tactic(auto, unfolding(crate::specs::RawTrain::raw_train_packet, etcs_schema::specs::Reading::only_keys, etcs_schema::specs::Reading::required_member))]
impl ObjectCodec for RawTrainPacket {
    fn write_members<M: TokenWriter>(&self, out: &mut M) -> Result<(), Memory> {
        let body = self.body();
        write_members!(out;
            BodyMember { body },
            NumberMember("l_packet", packet_length(HEAD_BITS, body)),
            NumberMember("nid_packet", u64::from(self.number())),
        )
    }

    fn read_object<N: JsonValue>(alloc: Global, node: &N) -> Result<Self, FormError> {
        check_members!(alloc, node; "body", "l_packet", "nid_packet");
        let number = read_number::<Self, N>(alloc, node, "nid_packet")?;
        let body = read_counted_body::<HEAD_BITS, N>(alloc, node)?;
        Ok(packet_of(number as u8, body))
    }
}
