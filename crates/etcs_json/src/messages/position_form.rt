//! The JSON form of `PositionMessage`, message 136.

use crate::Record;
use crate::members::{
    ListMember, Listed, Member, NumberMember, ReadMembers, check_members, pairs, write_members,
};
use crate::record::{InRange, ObjectCodec, prove_all_allowed, prove_allowed, prove_text};
use etcs_bits::Memory;
use etcs_radio::PositionMessage;
use etcs_schema::reading::read_fixed;
use etcs_schema::{FormError, JsonValue, TokenWriter};
use std::alloc::Global;

impl Record for PositionMessage {
    ghost use Rattle.etcs_schema.specs.Choices.{with_number};
    ghost use Rattle.etcs_json.specs.Messages.{position};
    ghost use Rattle.etcs_schema.specs.Codec.{whole};

    ghost object = { whole (with_number position) };
}

#[tactic(auto, unfolding(etcs_bits::specs::layout::Rows::alone))]
impl InRange for PositionMessage {
    fn prove_in_range(&self) {
        prove_allowed(&self.time());
        prove_allowed(&self.engine());
        prove_all_allowed(self.packets());
        prove_text(self);
    }
}

#[tactic(auto, unfolding(crate::specs::Messages::position))]
impl ObjectCodec for PositionMessage {
    fn write_members<M: TokenWriter>(&self, out: &mut M) -> Result<(), Memory> {
        write_members!(out;
            Member("nid_engine", &self.engine()),
            NumberMember("nid_message", 136),
            ListMember("packets", self.packets()),
            Member("t_train", &self.time()),
        )
    }

    fn read_object<N: JsonValue>(alloc: Global, node: &N) -> Result<Self, FormError> {
        check_members!(alloc, node; "nid_engine", "nid_message", "packets", "t_train");
        read_fixed(alloc, node, "nid_message", 136)?;
        let found = ReadMembers::read(alloc, node, pairs!("t_train", "nid_engine", "packets"))?;
        let (time, (engine, Listed { value: packets })) = found;
        match PositionMessage::new(time, engine, packets) {
            Ok(message) => Ok(message),
            Err(_) => Err(FormError::range_at(alloc, "packets")),
        }
    }
}
