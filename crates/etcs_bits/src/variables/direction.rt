//! `Dir`, Q_DIR: the running directions that a packet is for.

ghost use Rattle.std.specs.Prelude.{◌≡◌, ◌↔◌, IsTrue, IsSome, IfSome};

use crate::variables::read_named::read_named;
use crate::{Bits, Cursor, DecodeError, FaultKind, Layout, Memory, Same, refused};
use std::alloc::Global;

/// Q_DIR, 2 bits: the running directions that a packet is for, as seen from the group that sends
/// it. 3 is spare: a Spare fault (SUBSET-026, 7.5.1).
#[derive(Clone, Copy, Debug, PartialEq, Eq)]
pub enum Dir {
    /// 0: for trains that pass the group in reverse direction.
    Reverse = 0,
    /// 1: for trains that pass the group in nominal direction.
    Nominal = 1,
    /// 2: for trains in both directions.
    Both = 2,
}

impl Dir {
    ghost use Rattle.etcs_bits.specs.variables.Variables.{dir_variable, dir_number};

    /// The direction with this number; None from 3 on.
    #[inline(always)]
    pub fn new(n: u32) -> Option<Dir>
        ensures some { IfSome result (λ v. dir_number v ≡ n) }
        ensures allowed { IsSome result ↔ IsTrue (dir_variable.allows n) }
    {
        match n {
            0 => Some(Dir::Reverse),
            1 => Some(Dir::Nominal),
            2 => Some(Dir::Both),
            _ => None,
        }
    }

    /// The number of a direction.
    #[inline]
    pub fn number(self) -> u32
        ensures { result ≡ dir_number self }
    {
        self as u32
    }
}

#[tactic(auto, unfolding(crate::specs::layout::Rows::alone))]
impl Layout for Dir {
    ghost use Rattle.etcs_bits.specs.variables.VariableFormats.{q_dir};

    ghost format = { q_dir };

    fn is_allowed(&self) -> bool {
        // Each value of the type has a number that is allowed.
        true
    }

    fn width(&self) -> u64 {
        2
    }

    fn put(&self, out: &mut Bits) -> Result<(), Memory> {
        out.push_num(2, u64::from(self.number()))
    }

    #[inline(always)]
    fn scan(_alloc: Global, cur: &mut Cursor<'_>) -> Result<Self, DecodeError> {
        read_named!(cur, 2, Dir, Spare)
    }
}

impl Same for Dir {
    fn same(&self, other: &Dir) -> bool {
        self == other
    }
}
