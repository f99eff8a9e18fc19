//! `RawPacket`: a packet whose layout is not known here. Its body is kept as bits.

ghost use Rattle.std.specs.Prelude.{◌≡◌, ◌<◌, ◌≤◌, length, true, IfOk, IfErr, IsOk, IsTrue, OnErr, ◌↔◌};
ghost use Rattle.etcs_bits.specs.layout.Combined.{is_countable};
ghost use Rattle.etcs_bits.specs.layout.Reading.{read_rows};
ghost use Rattle.etcs_bits.specs.layout.Results.{Gives, IfMemory};
ghost use Rattle.etcs_profile.specs.PacketNumbers.{is_kept, is_kept_number};

use crate::track::has_layout;
use etcs_bits::{
    BitSlice, Bits, Cursor, DecodeError, Dir, FaultKind, Layout, Memory, Same, can_keep, put_kept,
    refused, scan_kept,
};
use std::alloc::Global;

// How many bits stand before L_PACKET: NID_PACKET and Q_DIR.
const BEFORE: u32 = 10;

/// A packet whose layout is not known here: NID_PACKET, Q_DIR, L_PACKET and a body that is kept as
/// it is. Its number is neither 255 nor that of a packet whose layout is known. Its body has at most
/// 8,168 bits (SUBSET-026, 7.4.1).
#[derive(Debug, Drop)]
pub struct RawPacket {
    number: u8,
    dir: Dir,
    body: Bits,
    pub ghost kept: { is_kept number (length body) ≡ true },
}

impl RawPacket {
    /// Whether packets of this number are kept as bits: it is neither that of a packet whose layout
    /// is known nor that of the end mark, and it has eight bits.
    #[inline]
    pub fn has_number(number: u64) -> bool
        ensures value { number < 256 → result ≡ is_kept_number number }
        ensures small { IsTrue result → number < 256 }
    {
        number < 255 && !has_layout(number)
    }

    /// The packet of these parts.
    ///
    /// The error gives the body back. Either the number is that of a known packet or of the end
    /// mark, or the body has more than 8,168 bits.
    pub fn new(number: u8, dir: Dir, body: Bits) -> Result<Self, Bits>
        ensures ok { IfOk result (λ r. (r.number ≡ number) × ((r.dir ≡ dir) × (r.body ≡ body))) }
        ensures made { IsOk result ↔ (is_kept number (length body) ≡ true) }
        ensures err { IfErr result (λ b. b ≡ body) }
    {
        if !RawPacket::has_number(u64::from(number)) || !can_keep(BEFORE, &body) {
            return Err(body);
        }
        Ok(RawPacket { number, dir, body })
    }

    /// The number of the packet: NID_PACKET.
    pub fn number(&self) -> u8
        ensures number { result ≡ self.now.number }
        ensures other { is_kept_number result ≡ true }
    {
        self.number
    }

    /// The running directions that the packet is for: Q_DIR.
    pub fn dir(&self) -> Dir
        ensures { result ≡ self.now.dir }
    {
        self.dir
    }

    /// The bits after L_PACKET: at most 8,168.
    pub fn body(&self) -> &Bits
        ensures bits { result.now ≡ self.now.body }
        ensures short { length result.now ≤ 8168 }
    {
        &self.body
    }
}

impl RawPacket {
    ghost use Rattle.etcs_profile.specs.Raw.{raw_rest};

    /// Reads what follows NID_PACKET: Q_DIR, and the body after L_PACKET, borrowed. After an error
    /// the cursor may stand anywhere.
    #[inline]
    pub(crate) fn scan_rest<'a>(
        alloc: Global,
        cur: &mut Cursor<'a>,
    ) -> Result<(Dir, BitSlice<'a>), DecodeError>
        ensures gives { Gives raw_rest.rows result (read_rows raw_rest.fields cur.old) cur.new }
        ensures few { IfOk result (λ rest. is_countable 10 (length rest.1) ≡ true) }
        ensures memory { IfMemory result ⊥ }
    {
        let dir = Dir::scan(alloc, cur)?;
        Ok((dir, scan_kept(BEFORE, cur)?))
    }

    /// The packet of these parts, with a copy of the body. Fails only if memory runs out.
    pub(crate) fn with_copy(
        alloc: Global,
        number: u8,
        dir: Dir,
        body: BitSlice<'_>,
    ) -> Result<Self, Memory>
        requires { is_kept number (length body) ≡ true }
        ensures ok { IfOk result (λ r. (r.number ≡ number) × ((r.dir ≡ dir) × (r.body ≡ body.entry))) }
        ensures memory { OnErr result (0 < length body.entry) }
    {
        Ok(RawPacket {
            number,
            dir,
            body: body.to_bits(alloc)?,
        })
    }
}

impl Layout for RawPacket {
    ghost use Rattle.etcs_profile.specs.Growth.{raw_grows};
    ghost use Rattle.etcs_profile.specs.Raw.{raw_packet};

    ghost format = { raw_packet };

    ghost grows = { raw_grows };

    fn is_allowed(&self) -> bool {
        // For the proof alone: the type keeps the number in range.
        let _number = self.number();
        self.dir.is_allowed()
    }

    #[tactic(auto, unfolding(etcs_bits::specs::layout::Rows::alone))]
    fn width(&self) -> u64 {
        (self.body.len() as u64).saturating_add(23)
    }

    #[tactic(auto, using(etcs_bits::proofs::PutLemmas::puts_bits, etcs_bits::proofs::PutLemmas::puts_then, etcs_bits::proofs::PutLemmas::keeps_front, etcs_bits::proofs::PutLemmas::allowed_both), unfolding(etcs_bits::specs::layout::Rows::alone))]
    fn put(&self, out: &mut Bits) -> Result<(), Memory> {
        out.push_num(8, u64::from(self.number))?;
        self.dir.put(out)?;
        put_kept(BEFORE, &self.body, out)
    }

    fn scan(alloc: Global, cur: &mut Cursor<'_>) -> Result<Self, DecodeError> {
        let at = cur.at();
        let number = cur.take(8)?;
        if !RawPacket::has_number(number) {
            return Err(refused(at, cur, FaultKind::Spare));
        }
        let (dir, body) = RawPacket::scan_rest(alloc, cur)?;
        let packet = RawPacket::with_copy(alloc, number as u8, dir, body)?;
        Ok(packet)
    }
}

#[tactic(auto, using(crate::proofs::RawLemmas::raw_parts))]
impl Same for RawPacket {
    fn same(&self, other: &RawPacket) -> bool {
        self.number == other.number && self.dir.same(&other.dir) && self.body.same(&other.body)
    }
}
