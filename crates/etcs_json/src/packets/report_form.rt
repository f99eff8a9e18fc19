//! The JSON form of `Report`, train packets 0 and 1: its members as nested pairs, read and written.

ghost use Rattle.std.specs.Prelude.{◌≡◌, OnOk};
ghost use Rattle.etcs_radio.specs.Report.{make_report, report_value as what_is_with};
ghost use Rattle.etcs_schema.specs.Choices.{with_number};
ghost use Rattle.etcs_schema.specs.Writing.{AddsMembers};
ghost use Rattle.etcs_schema.specs.Fault.{Returns};
ghost use Rattle.etcs_schema.specs.Reading.{as_kind};
ghost use Rattle.etcs_schema.specs.Codec.{whole};
ghost use Rattle.etcs_json.specs.Report.{either_report, identity, situation, with_one, with_two};
ghost use Rattle.etcs_json.specs.ReportWriting.{first_members, last_members};

use crate::Record;
use crate::members::{
    Member, NumberMember, OptionalMember, ReadMembers, make_record, pairs, read_record,
    write_members,
};
use crate::packets::integrity_form::{confirmed_length, length_number};
use crate::packets::level_form::national_system_of;
use crate::reading::read_first;
use crate::record::{ObjectForm, check_record, prove_allowed};
use etcs_bits::{Distance, Identity, Level, Memory, Plain, Scale};
use etcs_radio::{Integrity, Report, Train3};
use etcs_schema::reading::read_fixed;
use etcs_schema::{FormError, JsonValue, TokenWriter};
use json::Token;
use std::alloc::Global;

// Whether a train is whole, how it runs, and in which mode and level.
type State = (Integrity, (Plain<7>, (Train3, (Plain<4>, Level))));

// Where a train is, as seen from the group that its position report refers to, and its state.
type Situation = (Distance, (Train3, (Train3, (Distance, (Distance, State)))));

// What follows the number in packet 0, and in packet 1.
type WithOne = (Scale, (Identity, Situation));

type WithTwo = (Scale, (Identity, (Identity, Situation)));

// ---- reading

// The keys of the country and of the number.
impl ReadMembers for Identity {
    type Keys = (&'static str, &'static str);

    ghost reads = { λ keys. (identity keys.0.now keys.1.now).of };

    fn read<N: JsonValue>(
        alloc: Global,
        node: &N,
        keys: (&'static str, &'static str),
    ) -> Result<Identity, FormError> {
        read_record!(Identity, alloc, node; country keys.0, group keys.1)
    }
}

// The keys of a packet in byte order. Packet 0 lacks the keys of the previous group.
macro_rules! keys_with {
    ($($previous:literal),*) => {
        &[
            "d_lrbg", "l_doubtover", "l_doubtunder", "l_trainint", "m_level", "m_mode", "nid_bg", "nid_c", "nid_ntc",
            "nid_packet", $($previous,)* "q_dirlrbg", "q_dirtrain", "q_dlrbg", "q_length", "q_scale", "v_train",
        ]
    };
}

impl Record for WithOne {
    ghost object = { whole (with_number with_one) };
}

impl Record for WithTwo {
    ghost object = { whole (with_number with_two) };
}

// Reads the members after the groups.
#[tactic(auto, unfolding(crate::specs::Report::situation))]
fn read_situation<N: JsonValue>(alloc: Global, node: &N) -> Result<Situation, FormError>
    ensures { Returns (λ s. s) result (situation.of (N.value node.now)) }
{
    let distance = ReadMembers::read(alloc, node, "d_lrbg")?;
    let state = pairs!((), "v_train", "q_dirtrain", "m_mode", "m_level");
    let keys = pairs!("q_dirlrbg", "q_dlrbg", "l_doubtover", "l_doubtunder", state);
    let (orientation, (side, (over, (under, state)))) = ReadMembers::read(alloc, node, keys)?;
    Ok((distance, (orientation, (side, (over, (under, state))))))
}

// The position report of these parts.
fn report_with(
    previous: Option<Identity>,
    scale: Scale,
    lrbg: Identity,
    situation: Situation,
) -> Report
    ensures { result ≡ what_is_with previous scale lrbg situation }
{
    make_record!(Report, situation; [scale, lrbg, previous,] distance, orientation, side, doubt_over, doubt_under,
        length, speed, running, mode, level)
}

// Reads the members of packet 0.
#[tactic(auto, unfolding(crate::specs::Report::with_one))]
fn read_with_one<N: JsonValue>(alloc: Global, node: &N) -> Result<WithOne, FormError>
    ensures { Returns (λ p. p) result ((with_number with_one).members.of (N.value node.now)) }
{
    read_fixed(alloc, node, "nid_packet", 0)?;
    let scale = ReadMembers::read(alloc, node, "q_scale")?;
    let lrbg = ReadMembers::read(alloc, node, ("nid_c", "nid_bg"))?;
    let situation = read_situation(alloc, node)?;
    Ok((scale, (lrbg, situation)))
}

// Reads the members of packet 1.
#[tactic(auto, unfolding(crate::specs::Report::with_two))]
fn read_with_two<N: JsonValue>(alloc: Global, node: &N) -> Result<WithTwo, FormError>
    ensures { Returns (λ p. p) result ((with_number with_two).members.of (N.value node.now)) }
{
    read_fixed(alloc, node, "nid_packet", 1)?;
    let scale = ReadMembers::read(alloc, node, "q_scale")?;
    let lrbg = ReadMembers::read(alloc, node, ("nid_c", "nid_bg"))?;
    let previous = ReadMembers::read(alloc, node, ("prv_nid_c", "prv_nid_bg"))?;
    let situation = read_situation(alloc, node)?;
    Ok((scale, (lrbg, (previous, situation))))
}

/// Reads packet 0.
pub(crate) fn read_one<N: JsonValue>(alloc: Global, node: &N) -> Result<Report, FormError>
    ensures { Returns (λ r. r) result (as_kind make_report (either_report.of 0 (N.value node.now))) }
{
    #[tactic(auto, unfolding(crate::specs::Report::with_one, crate::specs::Report::situation))]
    check_record::<WithOne, N>(alloc, node, keys_with!())?;
    let (scale, (lrbg, situation)) = read_with_one(alloc, node)?;
    Ok(report_with(None, scale, lrbg, situation))
}

/// Reads packet 1.
pub(crate) fn read_two<N: JsonValue>(alloc: Global, node: &N) -> Result<Report, FormError>
    ensures { Returns (λ r. r) result (as_kind make_report (either_report.of 1 (N.value node.now))) }
{
    #[tactic(auto, unfolding(crate::specs::Report::with_two, crate::specs::Report::situation))]
    check_record::<WithTwo, N>(alloc, node, keys_with!("prv_nid_bg", "prv_nid_c"))?;
    let (scale, (lrbg, (previous, situation))) = read_with_two(alloc, node)?;
    Ok(report_with(Some(previous), scale, lrbg, situation))
}

// Writes the members up to NID_PACKET, in the byte order of their keys.
#[tactic(auto, unfolding(crate::specs::ReportWriting::first_members))]
fn write_first<M: TokenWriter>(out: &mut M, report: &Report) -> Result<(), Memory>
    ensures { OnOk result (AddsMembers M.adds (first_members report.now) out.old out.new) }
{
    write_members!(out;
        Member("d_lrbg", &report.distance),
        Member("l_doubtover", &report.doubt_over),
        Member("l_doubtunder", &report.doubt_under),
        OptionalMember("l_trainint", &confirmed_length(report.length)),
        NumberMember("m_level", u64::from(report.level.number())),
        Member("m_mode", &report.mode),
        Member("nid_bg", &report.lrbg.group),
        Member("nid_c", &report.lrbg.country),
        OptionalMember("nid_ntc", &national_system_of(report.level)),
        NumberMember("nid_packet", u64::from(report.number())),
    )
}

// Writes the members after NID_PACKET.
#[tactic(auto, unfolding(crate::specs::ReportWriting::last_members))]
fn write_last<M: TokenWriter>(out: &mut M, report: &Report) -> Result<(), Memory>
    ensures { OnOk result (AddsMembers M.adds (last_members report.now) out.old out.new) }
{
    write_members!(out;
        OptionalMember("prv_nid_bg", &report.previous.map(|previous| previous.group)),
        OptionalMember("prv_nid_c", &report.previous.map(|previous| previous.country)),
        Member("q_dirlrbg", &report.orientation),
        Member("q_dirtrain", &report.running),
        Member("q_dlrbg", &report.side),
        NumberMember("q_length", length_number(report.length)),
        Member("q_scale", &report.scale),
        Member("v_train", &report.speed),
    )
}

#[tactic(auto, unfolding(crate::specs::Report::report))]
impl ObjectForm for Report {
    ghost use Rattle.etcs_json.specs.Report.{report};

    ghost form = { report };

    #[tactic(auto, using(crate::proofs::LawLemmas::report_read), unfolding(crate::specs::Report::report))]
    fn prove_read_back(&self) {
        prove_allowed(self);
    }

    fn write_object<M: TokenWriter>(&self, out: &mut M) -> Result<(), Memory> {
        out.token(Token::BeginObject)?;
        write_first(out, self)?;
        write_last(out, self)?;
        out.token(Token::EndObject)?;
        Ok(())
    }

    fn read_form<N: JsonValue>(alloc: Global, node: &N) -> Result<Self, FormError> {
        let number: Plain<1> = read_first(alloc, node, "nid_packet")?;
        match number.number() {
            0 => read_one(alloc, node),
            _ => read_two(alloc, node),
        }
    }
}
