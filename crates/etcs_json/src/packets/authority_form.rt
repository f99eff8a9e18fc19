//! The JSON form of `Authority`, packets 12 and 15.

ghost use Rattle.std.specs.Prelude.{◌≡◌, OnOk};
ghost use Rattle.etcs_profile.specs.Authority.{authority_number, make_authority};
ghost use Rattle.etcs_json.specs.Authority.{either_authority, with_main, without_main};
ghost use Rattle.etcs_json.specs.AuthorityWriting.{written_members};
ghost use Rattle.etcs_schema.specs.Choices.{with_number};
ghost use Rattle.etcs_schema.specs.Writing.{AddsMembers};
ghost use Rattle.etcs_schema.specs.Fault.{Returns};
ghost use Rattle.etcs_schema.specs.Reading.{as_kind};
ghost use Rattle.etcs_schema.specs.Codec.{whole};

use crate::Record;
use crate::members::{
    ListMember, Member, NumberMember, OptionalMember, ReadMembers, write_members,
};
use crate::packets::terms_form::{Terms, authority_of};
use crate::reading::read_first;
use crate::record::{ObjectForm, check_record, prove_allowed};
use etcs_bits::{Dir, Memory, Ranged, Scale, Speed};
use etcs_profile::Authority;
use etcs_schema::reading::read_fixed;
use etcs_schema::{FormError, JsonValue, TokenWriter};
use json::Token;
use std::alloc::Global;

// What follows the number in packet 12, and in packet 15.
type WithMain = (Dir, (Scale, (Speed, Terms)));

type WithoutMain = (Dir, (Scale, Terms));

// The keys of packet 12, in byte order. Packet 15 lacks the last.
const KEYS: [&str; 12] = [
    "danger_point",
    "end_speed",
    "end_timeout",
    "end_timer",
    "l_endsection",
    "nid_packet",
    "overlap",
    "q_dir",
    "q_scale",
    "section_timer",
    "sections",
    "v_main",
];

// NID_PACKET: 12 if the authority has V_MAIN, else 15.
fn packet_number(authority: &Authority) -> u64
    ensures { result ≡ authority_number authority.now }
{
    match authority.main() {
        Some(_) => 12,
        None => 15,
    }
}

// Writes the members in the byte order of their keys.
#[tactic(auto, unfolding(crate::specs::AuthorityWriting::written_members))]
fn write_authority<M: TokenWriter>(out: &mut M, authority: &Authority) -> Result<(), Memory>
    ensures { OnOk result (AddsMembers M.adds (written_members authority.now) out.old out.new) }
{
    write_members!(out;
        OptionalMember("danger_point", &authority.danger_point()),
        Member("end_speed", &authority.end_speed()),
        Member("end_timeout", &authority.end_timeout()),
        OptionalMember("end_timer", &authority.end_timer()),
        Member("l_endsection", &authority.l_endsection()),
        NumberMember("nid_packet", packet_number(authority)),
        OptionalMember("overlap", &authority.overlap()),
        Member("q_dir", &authority.dir()),
        Member("q_scale", &authority.scale()),
        OptionalMember("section_timer", &authority.section_timer()),
        ListMember("sections", authority.sections()),
        OptionalMember("v_main", &authority.main()),
    )
}

impl Record for WithMain {
    ghost object = { whole (with_number with_main) };
}

impl Record for WithoutMain {
    ghost object = { whole (with_number without_main) };
}

// Reads the members of packet 12.
#[tactic(auto, unfolding(crate::specs::Authority::with_main))]
fn read_main_and_terms<N: JsonValue>(alloc: Global, node: &N) -> Result<WithMain, FormError>
    ensures { Returns (λ p. p) result ((with_number with_main).members.of (N.value node.now)) }
{
    read_fixed(alloc, node, "nid_packet", 12)?;
    let dir = ReadMembers::read(alloc, node, "q_dir")?;
    let scale = ReadMembers::read(alloc, node, "q_scale")?;
    let main = ReadMembers::read(alloc, node, "v_main")?;
    let terms = ReadMembers::read(alloc, node, ())?;
    Ok((dir, (scale, (main, terms))))
}

// Reads the members of packet 15.
#[tactic(auto, unfolding(crate::specs::Authority::without_main))]
fn read_terms_alone<N: JsonValue>(alloc: Global, node: &N) -> Result<WithoutMain, FormError>
    ensures { Returns (λ p. p) result ((with_number without_main).members.of (N.value node.now)) }
{
    read_fixed(alloc, node, "nid_packet", 15)?;
    let dir = ReadMembers::read(alloc, node, "q_dir")?;
    let scale = ReadMembers::read(alloc, node, "q_scale")?;
    let terms = ReadMembers::read(alloc, node, ())?;
    Ok((dir, (scale, terms)))
}

/// Reads packet 12.
pub(crate) fn read_with_main<N: JsonValue>(alloc: Global, node: &N) -> Result<Authority, FormError>
    ensures { Returns (λ a. a) result
        (as_kind make_authority (either_authority.of 12 (N.value node.now))) }
{
    #[tactic(auto, unfolding(crate::specs::Authority::with_main, crate::specs::Authority::terms, crate::specs::Authority::end_parts))]
    check_record::<WithMain, N>(alloc, node, &KEYS)?;
    let (dir, (scale, (main, terms))) = read_main_and_terms(alloc, node)?;
    Ok(authority_of(dir, scale, Some(main), terms))
}

/// Reads packet 15.
pub(crate) fn read_without_main<N: JsonValue>(
    alloc: Global,
    node: &N,
) -> Result<Authority, FormError>
    ensures { Returns (λ a. a) result
        (as_kind make_authority (either_authority.of 15 (N.value node.now))) }
{
    #[tactic(auto, unfolding(crate::specs::Authority::without_main, crate::specs::Authority::terms, crate::specs::Authority::end_parts))]
    check_record::<WithoutMain, N>(alloc, node, &KEYS[..11])?;
    let (dir, (scale, terms)) = read_terms_alone(alloc, node)?;
    Ok(authority_of(dir, scale, None, terms))
}

#[tactic(auto, unfolding(crate::specs::Authority::authority))]
impl ObjectForm for Authority {
    ghost use Rattle.etcs_json.specs.Authority.{authority};

    ghost form = { authority };

    #[tactic(auto, using(crate::proofs::LawLemmas::authority_read), unfolding(crate::specs::Authority::authority))]
    fn prove_read_back(&self) {
        prove_allowed(self);
    }

    fn write_object<M: TokenWriter>(&self, out: &mut M) -> Result<(), Memory> {
        out.token(Token::BeginObject)?;
        write_authority(out, self)?;
        out.token(Token::EndObject)?;
        Ok(())
    }

    fn read_form<N: JsonValue>(alloc: Global, node: &N) -> Result<Self, FormError> {
        let number: Ranged<8, 254, 256> = read_first(alloc, node, "nid_packet")?;
        match number.number() {
            12 => read_with_main(alloc, node),
            15 => read_without_main(alloc, node),
            _ => Err(FormError::range_at(alloc, "nid_packet")),
        }
    }
}
