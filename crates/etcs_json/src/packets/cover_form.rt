//! The JSON form of `CoverMarker`, packet 0.

ghost use Rattle.etcs_json.specs.Cover.{cover_marker};
ghost use Rattle.etcs_schema.specs.Codec.{whole};

use crate::Record;
use crate::members::{Member, NumberMember, ReadMembers, check_members, write_members};
use crate::record::{LayoutRecord, ObjectCodec};
use etcs_bits::Memory;
use etcs_packet::CoverMarker;
use etcs_schema::reading::read_fixed;
use etcs_schema::{FormError, JsonValue, TokenWriter};
use std::alloc::Global;

impl Record for CoverMarker {
    ghost object = { whole cover_marker };
}

impl LayoutRecord for CoverMarker {
    ghost keeps = { λ x allowed. allowed tt };
}

#[tactic(auto, unfolding(crate::specs::Cover::cover_marker, crate::specs::Cover::cover))]
impl ObjectCodec for CoverMarker {
    fn write_members<M: TokenWriter>(&self, out: &mut M) -> Result<(), Memory> {
        write_members!(out;
            NumberMember("nid_packet", 0),
            Member("nid_vbcmk", &self.marker),
        )
    }

    fn read_object<N: JsonValue>(alloc: Global, node: &N) -> Result<Self, FormError> {
        check_members!(alloc, node; "nid_packet", "nid_vbcmk");
        read_fixed(alloc, node, "nid_packet", 0)?;
        let marker = ReadMembers::read(alloc, node, "nid_vbcmk")?;
        Ok(CoverMarker { marker })
    }
}
