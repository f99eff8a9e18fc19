//! The JSON form of `MovementMessage`, message 3.

use crate::Record;
use crate::members::{
    ListMember, Listed, Member, NumberMember, ReadMembers, check_members, pairs, write_members,
};
use crate::record::{InRange, ObjectCodec, prove_all_allowed, prove_allowed, prove_text};
use etcs_bits::{Identity, Memory};
use etcs_radio::MovementMessage;
use etcs_schema::reading::read_fixed;
use etcs_schema::{FormError, JsonValue, TokenWriter};
use std::alloc::Global;

impl Record for MovementMessage {
    ghost use Rattle.etcs_schema.specs.Choices.{with_number};
    ghost use Rattle.etcs_json.specs.Messages.{movement};
    ghost use Rattle.etcs_schema.specs.Codec.{whole};

    ghost object = { whole (with_number movement) };
}

#[tactic(auto, unfolding(etcs_bits::specs::layout::Rows::alone))]
impl InRange for MovementMessage {
    fn prove_in_range(&self) {
        prove_allowed(&self.time());
        prove_allowed(&self.ack());
        prove_allowed(&self.lrbg());
        prove_all_allowed(self.packets());
        prove_text(self);
    }
}

#[tactic(auto, unfolding(crate::specs::Messages::movement))]
impl ObjectCodec for MovementMessage {
    fn write_members<M: TokenWriter>(&self, out: &mut M) -> Result<(), Memory> {
        let lrbg = self.lrbg();
        write_members!(out;
            Member("m_ack", &self.ack()),
            Member("nid_bg", &lrbg.group),
            Member("nid_c", &lrbg.country),
            NumberMember("nid_message", 3),
            ListMember("packets", self.packets()),
            Member("t_train", &self.time()),
        )
    }

    fn read_object<N: JsonValue>(alloc: Global, node: &N) -> Result<Self, FormError> {
        check_members!(alloc, node; "m_ack", "nid_bg", "nid_c", "nid_message", "packets", "t_train");
        read_fixed(alloc, node, "nid_message", 3)?;
        let keys = pairs!("t_train", "m_ack", "nid_c", "nid_bg", "packets");
        let found = ReadMembers::read(alloc, node, keys)?;
        let (time, (ack, (country, (group, Listed { value: packets })))) = found;
        match MovementMessage::new(time, ack, Identity { country, group }, packets) {
            Ok(message) => Ok(message),
            Err(_) => Err(FormError::range_at(alloc, "packets")),
        }
    }
}
