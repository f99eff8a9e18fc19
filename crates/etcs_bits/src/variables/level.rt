//! `Level`, M_LEVELTR and M_LEVEL with NID_NTC: the level in which a train runs.

ghost use Rattle.std.specs.Prelude.{◌≡◌};

use crate::bits::Bits;
use crate::bits::cursor::Cursor;
use crate::bits::memory::Memory;
use crate::layout::Layout;
use crate::layout::fault::{DecodeError, FaultKind, refused};
use crate::layout::same::Same;
use std::alloc::Global;

/// M_LEVELTR and M_LEVEL, 3 bits: the ETCS level in which a train runs, or has to run from a given
/// place. NID_NTC, 8 bits, follows level NTC. 5 to 7 are spare: a Spare fault (SUBSET-026, 7.5.1).
#[derive(Clone, Copy, Debug, PartialEq, Eq)]
pub enum Level {
    /// 0: level 0, where ETCS supervises only a ceiling speed.
    L0,
    /// 1: level NTC, with NID_NTC, the national system that supervises the train.
    Ntc(u8),
    /// 2: level 1.
    L1,
    /// 3: level 2.
    L2,
    /// 4: level 3.
    L3,
}

impl Level {
    ghost use Rattle.etcs_bits.specs.variables.Level.{level_number};

    /// The number of a level, without NID_NTC.
    #[inline]
    pub fn number(self) -> u32
        ensures { result ≡ level_number self }
    {
        match self {
            Level::L0 => 0,
            Level::Ntc(_) => 1,
            Level::L1 => 2,
            Level::L2 => 3,
            Level::L3 => 4,
        }
    }
}

#[tactic(auto, using(crate::proofs::PutLemmas::puts_bits), unfolding(crate::specs::layout::Rows::alone))]
impl Layout for Level {
    ghost use Rattle.etcs_bits.specs.variables.Level.{m_level};

    ghost format = { m_level };

    fn is_allowed(&self) -> bool {
        // Each value of the type has numbers that are allowed: a u8 fits in NID_NTC.
        match *self {
            Level::Ntc(_ntc) => true,
            _ => true,
        }
    }

    fn width(&self) -> u64 {
        match self {
            Level::Ntc(_) => 11,
            _ => 3,
        }
    }

    fn put(&self, out: &mut Bits) -> Result<(), Memory> {
        out.push_num(3, u64::from(self.number()))?;
        match *self {
            Level::Ntc(ntc) => out.push_num(8, u64::from(ntc)),
            _ => Ok(()),
        }
    }

    #[inline(always)]
    fn scan(_alloc: Global, cur: &mut Cursor<'_>) -> Result<Self, DecodeError> {
        let at = cur.at();
        match cur.take(3)? {
            0 => Ok(Level::L0),
            1 => {
                let ntc = cur.take(8)?;
                Ok(Level::Ntc(ntc as u8))
            }
            2 => Ok(Level::L1),
            3 => Ok(Level::L2),
            4 => Ok(Level::L3),
            _ => Err(refused(at, cur, FaultKind::Spare)),
        }
    }
}

impl Same for Level {
    fn same(&self, other: &Level) -> bool {
        self == other
    }
}
