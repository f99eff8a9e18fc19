//! `Dup`, M_DUP: whether a balise duplicates the next balise, the previous one or none.

ghost use Rattle.std.specs.Prelude.{◌≡◌, ◌↔◌, IsTrue, IsSome, IfSome};

use crate::variables::read_named::read_named;
use crate::{Bits, Cursor, DecodeError, FaultKind, Layout, Memory, Same, refused};
use std::alloc::Global;

/// M_DUP, 2 bits: whether a balise sends the same information as a neighbour in its group, so that
/// a train may miss one of the two. 3 is spare: a Spare fault (SUBSET-026, 3.16.2 and 7.5.1).
#[derive(Clone, Copy, Debug, PartialEq, Eq)]
pub enum Dup {
    /// 0: no duplicate.
    Single = 0,
    /// 1: a duplicate of the next balise, whose N_PIG is one greater.
    Next = 1,
    /// 2: a duplicate of the previous balise, whose N_PIG is one less.
    Previous = 2,
}

impl Dup {
    ghost use Rattle.etcs_bits.specs.variables.Variables.{duplicate_variable, dup_number};

    /// The mark with this number; None from 3 on.
    #[inline(always)]
    pub fn new(n: u32) -> Option<Dup>
        ensures some { IfSome result (λ v. dup_number v ≡ n) }
        ensures allowed { IsSome result ↔ IsTrue (duplicate_variable.allows n) }
    {
        match n {
            0 => Some(Dup::Single),
            1 => Some(Dup::Next),
            2 => Some(Dup::Previous),
            _ => None,
        }
    }

    /// The number of a mark.
    #[inline]
    pub fn number(self) -> u32
        ensures { result ≡ dup_number self }
    {
        self as u32
    }
}

#[tactic(auto, unfolding(crate::specs::layout::Rows::alone))]
impl Layout for Dup {
    ghost use Rattle.etcs_bits.specs.variables.VariableFormats.{m_dup};

    ghost format = { m_dup };

    fn is_allowed(&self) -> bool {
        // Each value of the type has a number that is allowed.
        true
    }

    fn width(&self) -> u64 {
        2
    }

    fn put(&self, out: &mut Bits) -> Result<(), Memory> {
        out.push_num(2, u64::from(self.number()))
    }

    #[inline(always)]
    fn scan(_alloc: Global, cur: &mut Cursor<'_>) -> Result<Self, DecodeError> {
        read_named!(cur, 2, Dup, Spare)
    }
}

impl Same for Dup {
    fn same(&self, other: &Dup) -> bool {
        self == other
    }
}
