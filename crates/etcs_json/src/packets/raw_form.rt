//! The JSON form of `RawPacket`, a track packet whose layout is not known. Its body is kept as bits.

ghost use Rattle.std.specs.Prelude.{◌≡◌, length, true};
ghost use Rattle.etcs_profile.specs.FoundRaw.{make_raw};
ghost use Rattle.etcs_profile.specs.PacketNumbers.{is_kept, nid_raw};
ghost use Rattle.etcs_json.specs.Raw.{raw_packet};
ghost use Rattle.etcs_schema.specs.Codec.{whole};
ghost use Rattle.etcs_schema.specs.Variables.{is_allowed};

use crate::Record;
use crate::members::{Member, NumberMember, ReadMembers, check_members, write_members};
use crate::packets::body_form::{packet_length, read_counted_body};
use crate::packets::body_text::BodyMember;
use crate::reading::{AllowedNumbers, read_number};
use crate::record::{InRange, ObjectCodec, prove_allowed, prove_text};
use etcs_bits::{Bits, Dir, Memory};
use etcs_packet::RawPacket;
use etcs_schema::{FormError, JsonValue, TokenWriter};
use std::alloc::Global;

// The bits before the body: NID_PACKET, Q_DIR and L_PACKET.
const HEAD_BITS: u32 = 23;

impl AllowedNumbers for RawPacket {
    ghost test = { is_allowed nid_raw };

    fn has(number: u64) -> bool {
        RawPacket::has_number(number)
    }
}

impl Record for RawPacket {
    ghost object = { whole raw_packet };
}

impl InRange for RawPacket {
    fn prove_in_range(&self) {
        prove_allowed(self);
        prove_text(self);
    }
}

// The packet of parts that were read.
fn packet_of(number: u8, dir: Dir, body: Bits) -> RawPacket
    requires { is_kept number (length body) ≡ true }
    ensures { result ≡ make_raw number (dir, body) }
{
    match RawPacket::new(number, dir, body) {
        Ok(packet) => packet,
        Err(_) => unreachable!("a packet of this number and this length is kept as bits"),
    }
}

#[tactic(auto, unfolding(crate::specs::Raw::raw_packet, etcs_schema::specs::Reading::only_keys, etcs_schema::specs::Reading::required_member))]
impl ObjectCodec for RawPacket {
    fn write_members<M: TokenWriter>(&self, out: &mut M) -> Result<(), Memory> {
        let body = self.body();
        write_members!(out;
            BodyMember { body },
            NumberMember("l_packet", packet_length(HEAD_BITS, body)),
            NumberMember("nid_packet", u64::from(self.number())),
            Member("q_dir", &self.dir()),
        )
    }

    fn read_object<N: JsonValue>(alloc: Global, node: &N) -> Result<Self, FormError> {
        check_members!(alloc, node; "body", "l_packet", "nid_packet", "q_dir");
        let number = read_number::<Self, N>(alloc, node, "nid_packet")?;
        let dir = ReadMembers::read(alloc, node, "q_dir")?;
        let body = read_counted_body::<HEAD_BITS, N>(alloc, node)?;
        Ok(packet_of(number as u8, dir, body))
    }
}
