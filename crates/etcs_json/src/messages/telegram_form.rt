//! The JSON form of `Telegram`, with its `Size` and its `Header`.

ghost use Rattle.std.specs.Prelude.{◌≡◌};
ghost use Rattle.etcs_telegram.specs.Sizes.{user_bits};
ghost use Rattle.etcs_json.specs.Telegrams.{header};

use crate::members::{
    ListMember, Listed, Member, ReadMembers, check_members, pairs, read_record, write_members,
};
use crate::record::{InRange, ObjectCodec, prove_all_allowed, prove_allowed, prove_text};
use crate::{Form, Record, WriteJson};
use etcs_bits::Memory;
use etcs_schema::{FormError, JsonValue, TokenWriter};
use etcs_telegram::{Header, Size, Telegram};
use serde_json::Value;
use std::alloc::Global;

// How many user bits a telegram of this size has.
fn user_bit_count(size: Size) -> u64
    ensures { result ≡ user_bits size }
{
    match size {
        Size::Short => 210,
        Size::Long => 830,
    }
}

#[tactic(auto, unfolding(etcs_schema::specs::Reading::allowed_number))]
impl Form for Size {
    ghost use Rattle.etcs_json.specs.Telegrams.{size};

    ghost codec = { size };

    fn to_form(&self, _alloc: Global) -> Result<Value, Memory> {
        Ok(Value::from(user_bit_count(*self)))
    }

    fn read_json<N: JsonValue>(alloc: Global, node: &N) -> Result<Self, FormError> {
        match node.number() {
            None => Err(FormError::kind(alloc)),
            Some(210) => Ok(Size::Short),
            Some(830) => Ok(Size::Long),
            Some(_) => Err(FormError::range(alloc)),
        }
    }
}

impl WriteJson for Size {
    #[inline(always)]
    fn write_json<M: TokenWriter>(&self, out: &mut M) -> Result<(), Memory> {
        out.number(user_bit_count(*self))
    }

    #[inline(always)]
    fn write_json_member<M: TokenWriter>(&self, name: &str, out: &mut M) -> Result<(), Memory> {
        out.member(name, user_bit_count(*self))
    }
}

impl ReadMembers for Header {
    type Keys = ();

    ghost reads = { λ _. header.of };

    #[tactic(auto, unfolding(crate::specs::Telegrams::header))]
    fn read<N: JsonValue>(alloc: Global, node: &N, _keys: ()) -> Result<Header, FormError> {
        read_record!(Header, alloc, node;
            version "m_version",
            position "n_pig",
            total "n_total",
            dup "m_dup",
            counter "m_mcount",
            identity ("nid_c", "nid_bg"),
            linked "q_link",
        )
    }
}

impl Record for Telegram {
    ghost use Rattle.etcs_schema.specs.Codec.{whole};
    ghost use Rattle.etcs_json.specs.Telegrams.{telegram};

    ghost object = { whole telegram };
}

#[tactic(auto, using(etcs_bits::proofs::PutLemmas::allowed_both))]
impl InRange for Telegram {
    fn prove_in_range(&self) {
        prove_allowed(&self.header);
        prove_all_allowed(self.packets.as_slice());
        prove_text(self);
    }
}

#[tactic(auto, unfolding(crate::specs::Telegrams::telegram, crate::specs::Telegrams::header))]
impl ObjectCodec for Telegram {
    fn write_members<M: TokenWriter>(&self, out: &mut M) -> Result<(), Memory> {
        let header = &self.header;
        write_members!(out;
            Member("m_dup", &header.dup),
            Member("m_mcount", &header.counter),
            Member("m_version", &header.version),
            Member("n_pig", &header.position),
            Member("n_total", &header.total),
            Member("nid_bg", &header.identity.group),
            Member("nid_c", &header.identity.country),
            ListMember("packets", self.packets.as_slice()),
            Member("q_link", &header.linked),
            Member("user_bits", &self.size),
        )
    }

    fn read_object<N: JsonValue>(alloc: Global, node: &N) -> Result<Self, FormError> {
        check_members!(alloc, node; "m_dup", "m_mcount", "m_version", "n_pig", "n_total",
            "nid_bg", "nid_c", "packets", "q_link", "user_bits");
        let keys = pairs!("user_bits", (), "packets");
        let (size, (header, Listed { value: packets })) = ReadMembers::read(alloc, node, keys)?;
        Ok(Telegram {
            size,
            header,
            packets,
        })
    }
}
