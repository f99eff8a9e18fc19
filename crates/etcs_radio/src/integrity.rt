//! `Integrity`, Q_LENGTH and L_TRAININT: the integrity and the length of a train.

use etcs_bits::{Bits, Cursor, DecodeError, Distance, Layout, Memory, Same};
use std::alloc::Global;

/// Q_LENGTH, 2 bits: what a train knows about its integrity. L_TRAININT, 15 bits, the length of the
/// train, follows 1 and 2. No number is spare (SUBSET-026, 7.5.1).
#[derive(Clone, Copy, Debug, PartialEq, Eq)]
pub enum Integrity {
    /// 0: nothing is known.
    Q0,
    /// 1: integrity confirmed by a device on board, with the length that it is confirmed for.
    Q1(Distance),
    /// 2: integrity confirmed by the driver, with the length that it is confirmed for.
    Q2(Distance),
    /// 3: integrity lost.
    Q3,
}

#[tactic(auto, using(etcs_bits::proofs::PutLemmas::puts_bits), unfolding(etcs_bits::specs::layout::Rows::alone))]
impl Layout for Integrity {
    ghost use Rattle.etcs_radio.specs.Integrity.{q_length};

    ghost format = { q_length };

    fn is_allowed(&self) -> bool {
        match self {
            Integrity::Q1(length) | Integrity::Q2(length) => length.is_allowed(),
            Integrity::Q0 | Integrity::Q3 => true,
        }
    }

    fn width(&self) -> u64 {
        match self {
            Integrity::Q0 | Integrity::Q3 => 2,
            Integrity::Q1(_) | Integrity::Q2(_) => 17,
        }
    }

    fn put(&self, out: &mut Bits) -> Result<(), Memory> {
        match self {
            Integrity::Q0 => out.push_num(2, 0),
            Integrity::Q1(length) => {
                out.push_num(2, 1)?;
                length.put(out)
            }
            Integrity::Q2(length) => {
                out.push_num(2, 2)?;
                length.put(out)
            }
            Integrity::Q3 => out.push_num(2, 3),
        }
    }

    #[inline(always)]
    fn scan(alloc: Global, cur: &mut Cursor<'_>) -> Result<Self, DecodeError> {
        match cur.take(2)? {
            0 => Ok(Integrity::Q0),
            1 => Ok(Integrity::Q1(Layout::scan(alloc, cur)?)),
            2 => Ok(Integrity::Q2(Layout::scan(alloc, cur)?)),
            _ => Ok(Integrity::Q3),
        }
    }
}

impl Same for Integrity {
    fn same(&self, other: &Integrity) -> bool {
        self == other
    }
}
