//! `Train3`: a direction or side in a position report (Q_DIRLRBG, Q_DLRBG, Q_DIRTRAIN), which may be unknown.

ghost use Rattle.std.specs.Prelude.{◌≡◌, ◌↔◌, IsTrue, IsSome, IfSome};

use crate::variables::read_named::read_named;
use crate::{Bits, Cursor, DecodeError, FaultKind, Layout, Memory, Same, refused};
use std::alloc::Global;

/// Q_DIRLRBG, Q_DLRBG and Q_DIRTRAIN, 2 bits each: how a train stands, where its front is, and which
/// way it runs, each as seen from the group that its position report refers to. 3 is spare: a Spare fault
/// (SUBSET-026, 7.5.1).
#[derive(Clone, Copy, Debug, PartialEq, Eq)]
pub enum Train3 {
    /// 0: reverse.
    Reverse = 0,
    /// 1: nominal.
    Nominal = 1,
    /// 2: unknown.
    Unknown = 2,
}

impl Train3 {
    ghost use Rattle.etcs_bits.specs.variables.Train3.{train3_variable, train3_number};

    /// The value with this number; None from 3 on.
    #[inline(always)]
    pub fn new(n: u32) -> Option<Train3>
        ensures some { IfSome result (λ v. train3_number v ≡ n) }
        ensures allowed { IsSome result ↔ IsTrue (train3_variable.allows n) }
    {
        match n {
            0 => Some(Train3::Reverse),
            1 => Some(Train3::Nominal),
            2 => Some(Train3::Unknown),
            _ => None,
        }
    }

    /// The number of a value.
    #[inline]
    pub fn number(self) -> u32
        ensures { result ≡ train3_number self }
    {
        self as u32
    }
}

#[tactic(auto, unfolding(crate::specs::layout::Rows::alone))]
impl Layout for Train3 {
    ghost use Rattle.etcs_bits.specs.variables.Train3.{train3};

    ghost format = { train3 };

    fn is_allowed(&self) -> bool {
        // Each value of the type has a number that is allowed.
        true
    }

    fn width(&self) -> u64 {
        2
    }

    fn put(&self, out: &mut Bits) -> Result<(), Memory> {
        out.push_num(2, u64::from(self.number()))
    }

    #[inline(always)]
    fn scan(_alloc: Global, cur: &mut Cursor<'_>) -> Result<Self, DecodeError> {
        read_named!(cur, 2, Train3, Spare)
    }
}

impl Same for Train3 {
    fn same(&self, other: &Train3) -> bool {
        self == other
    }
}
