//! The JSON form of `Transition`, packet 41, and of `LevelOrder`.

ghost use Rattle.std.proofs.Common.{lit<};
ghost use Rattle.etcs_schema.specs.Head.{packet};
ghost use Rattle.etcs_schema.specs.Codec.{whole};
ghost use Rattle.etcs_json.specs.Transition.{level_order, transition};

use crate::Record;
use crate::members::{
    Member, NonEmpty, NonEmptyMember, NumberMember, OptionalMember, ReadMembers, check_members,
    pairs, read_record, write_members,
};
use crate::packets::level_form::national_system_of;
use crate::record::{LayoutRecord, ObjectCodec};
use etcs_bits::Memory;
use etcs_profile::{LevelOrder, Transition};
use etcs_schema::reading::read_fixed;
use etcs_schema::{FormError, JsonValue, TokenWriter};
use std::alloc::Global;

impl Record for LevelOrder {
    ghost object = { whole level_order };
}

impl LayoutRecord for LevelOrder {
    ghost keeps = { λ x allowed. allowed tt };
}

#[tactic(auto, unfolding(crate::specs::Transition::level_order))]
impl ObjectCodec for LevelOrder {
    #[tactic(auto, unfolding(crate::specs::Transition::level_order, etcs_bits::specs::layout::Rows::alone))]
    fn write_members<M: TokenWriter>(&self, out: &mut M) -> Result<(), Memory> {
        let ntc = national_system_of(self.level);
        let number = u64::from(self.level.number());
        write_members!(out;
            Member("l_ackleveltr", &self.acknowledge),
            NumberMember("m_leveltr", number),
            OptionalMember("nid_ntc", &ntc),
        )
    }

    fn read_object<N: JsonValue>(alloc: Global, node: &N) -> Result<Self, FormError> {
        check_members!(alloc, node; "l_ackleveltr", "m_leveltr", "nid_ntc");
        read_record!(LevelOrder, alloc, node;
            level "m_leveltr",
            acknowledge "l_ackleveltr",
        )
    }
}

impl Record for Transition {
    ghost object = { packet transition };
}

impl LayoutRecord for Transition {
    ghost keeps = { λ x allowed. allowed (lit< tt) };
}

#[tactic(auto, unfolding(crate::specs::Transition::transition))]
impl ObjectCodec for Transition {
    fn write_members<M: TokenWriter>(&self, out: &mut M) -> Result<(), Memory> {
        write_members!(out;
            Member("d_leveltr", &self.d_leveltr()),
            NumberMember("nid_packet", 41),
            Member("q_dir", &self.dir()),
            Member("q_scale", &self.scale()),
            NonEmptyMember("transitions", self.first(), self.further()),
        )
    }

    fn read_object<N: JsonValue>(alloc: Global, node: &N) -> Result<Self, FormError> {
        check_members!(alloc, node; "d_leveltr", "nid_packet", "q_dir", "q_scale", "transitions");
        read_fixed(alloc, node, "nid_packet", 41)?;
        let keys = pairs!("q_dir", "q_scale", "d_leveltr", "transitions");
        let found = ReadMembers::read(alloc, node, keys)?;
        let (dir, (scale, (d_leveltr, NonEmpty { first, further }))) = found;
        match Transition::new(dir, scale, d_leveltr, first, further) {
            Ok(packet) => Ok(packet),
            Err(_) => Err(FormError::range(alloc)),
        }
    }
}
