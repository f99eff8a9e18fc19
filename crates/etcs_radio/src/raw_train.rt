//! `RawTrainPacket`: a packet from train to track whose layout is not known here. Its body is kept as bits.

ghost use Rattle.std.specs.Prelude.{◌≡◌, ◌≤◌, ◌<◌, length, true, IfOk, IfErr, IsOk, IsTrue, ◌↔◌};
ghost use Rattle.etcs_radio.specs.TrainNumbers.{is_kept, is_kept_number};

use etcs_bits::{
    Bits, Cursor, DecodeError, FaultKind, Layout, Memory, Same, can_keep, put_kept, refused,
    scan_kept,
};
use std::alloc::Global;

// The number of bits in front of L_PACKET: NID_PACKET.
const BEFORE: u32 = 8;

/// A train packet whose layout is not known here: NID_PACKET, L_PACKET and a body that is kept as bits.
/// Its number is none of 0, 1 and 255. Its body has at most 8,170 bits (SUBSET-026, 7.4.1).
#[derive(Debug, Drop)]
pub struct RawTrainPacket {
    number: u8,
    body: Bits,
    pub ghost kept: { is_kept number (length body) ≡ true },
}

impl RawTrainPacket {
    /// Whether packets of this number are kept as bits: it has eight bits, and is not the number of a
    /// position report or of the end mark.
    pub fn has_number(number: u64) -> bool
        ensures value { number < 256 → result ≡ is_kept_number number }
        ensures small { IsTrue result → number < 256 }
    {
        matches!(number, 2..=254)
    }

    /// The packet of these parts.
    ///
    /// The error gives the body back: the number is the number of a position report or of the end mark, or
    /// the body has more than 8,170 bits.
    pub fn new(number: u8, body: Bits) -> Result<Self, Bits>
        ensures ok { IfOk result (λ r. (r.number ≡ number) × (r.body ≡ body)) }
        ensures made { IsOk result ↔ (is_kept number (length body) ≡ true) }
        ensures err { IfErr result (λ b. b ≡ body) }
    {
        if !RawTrainPacket::has_number(u64::from(number)) || !can_keep(BEFORE, &body) {
            return Err(body);
        }
        Ok(RawTrainPacket { number, body })
    }

    /// The number of the packet: NID_PACKET.
    pub fn number(&self) -> u8
        ensures number { result ≡ self.now.number }
        ensures other { is_kept_number result ≡ true }
    {
        self.number
    }

    /// The bits after L_PACKET: at most 8,170.
    pub fn body(&self) -> &Bits
        ensures bits { result.now ≡ self.now.body }
        ensures short { length result.now ≤ 8170 }
    {
        &self.body
    }
}

impl RawTrainPacket {
    ghost use Rattle.etcs_bits.specs.layout.Choice.{read_chosen, numbered_rows};
    ghost use Rattle.etcs_bits.specs.layout.Results.{Gives, IfMemory};
    ghost use Rattle.etcs_radio.specs.RawTrain.{copy_grows, others};

    // Reads what follows a number that is kept as bits, and copies the body. After an error the cursor is
    // at an unspecified position.
    pub(crate) fn scan_rest(
        alloc: Global,
        number: u64,
        cur: &mut Cursor<'_>,
    ) -> Result<Self, DecodeError>
        requires small { number < 256 }
        requires other { is_kept_number number ≡ true }
        ensures gives { Gives (numbered_rows others) result (read_chosen others number cur.old) cur.new }

        // Allocates only if as many bits follow as L_PACKET counts, and at least one.
        ensures memory { IfMemory result (copy_grows cur.old) }
    {
        let body = scan_kept(BEFORE, cur)?.to_bits(alloc)?;
        Ok(RawTrainPacket {
            number: number as u8,
            body,
        })
    }
}

impl Layout for RawTrainPacket {
    ghost use Rattle.etcs_radio.specs.RawTrain.{raw_train_grows, raw_train_packet};

    ghost format = { raw_train_packet };

    ghost grows = { raw_train_grows };

    fn is_allowed(&self) -> bool {
        // Only for the proof: the type keeps the number in range.
        let _number = self.number();
        true
    }

    #[tactic(auto, unfolding(etcs_bits::specs::layout::Rows::alone))]
    fn width(&self) -> u64 {
        (self.body.len() as u64).saturating_add(21)
    }

    #[tactic(auto, using(etcs_bits::proofs::PutLemmas::puts_bits, etcs_bits::proofs::PutLemmas::keeps_front), unfolding(etcs_bits::specs::layout::Rows::alone))]
    fn put(&self, out: &mut Bits) -> Result<(), Memory> {
        out.push_num(8, u64::from(self.number))?;
        put_kept(BEFORE, &self.body, out)
    }

    fn scan(alloc: Global, cur: &mut Cursor<'_>) -> Result<Self, DecodeError> {
        let at = cur.at();
        let number = cur.take(8)?;
        if !RawTrainPacket::has_number(number) {
            return Err(refused(at, cur, FaultKind::Spare));
        }
        RawTrainPacket::scan_rest(alloc, number, cur)
    }
}

#[tactic(auto, using(crate::proofs::RawTrainLemmas::raw_parts))]
impl Same for RawTrainPacket {
    fn same(&self, other: &RawTrainPacket) -> bool {
        self.number == other.number && self.body.same(&other.body)
    }
}
