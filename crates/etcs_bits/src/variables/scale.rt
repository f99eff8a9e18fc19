//! `Scale`, Q_SCALE: the unit of a packet's distances.

ghost use Rattle.std.specs.Prelude.{◌≡◌, ◌↔◌, IsTrue, IsSome, IfSome};

use crate::variables::read_named::read_named;
use crate::{Bits, Cursor, DecodeError, FaultKind, Layout, Memory, Same, refused};
use std::alloc::Global;

/// Q_SCALE, 2 bits: the unit of all distances in a packet. 3 is spare: a Spare fault (SUBSET-026,
/// 7.5.1).
#[derive(Clone, Copy, Debug, PartialEq, Eq)]
pub enum Scale {
    /// 0: 10 centimetres.
    TenCentimetres = 0,
    /// 1: 1 metre.
    Metre = 1,
    /// 2: 10 metres.
    TenMetres = 2,
}

impl Scale {
    ghost use Rattle.etcs_bits.specs.variables.Variables.{scale_variable, scale_number};

    /// The unit with this number; None from 3 on.
    #[inline(always)]
    pub fn new(n: u32) -> Option<Scale>
        ensures some { IfSome result (λ v. scale_number v ≡ n) }
        ensures allowed { IsSome result ↔ IsTrue (scale_variable.allows n) }
    {
        match n {
            0 => Some(Scale::TenCentimetres),
            1 => Some(Scale::Metre),
            2 => Some(Scale::TenMetres),
            _ => None,
        }
    }

    /// The number of a unit.
    #[inline]
    pub fn number(self) -> u32
        ensures { result ≡ scale_number self }
    {
        self as u32
    }
}

#[tactic(auto, unfolding(crate::specs::layout::Rows::alone))]
impl Layout for Scale {
    ghost use Rattle.etcs_bits.specs.variables.VariableFormats.{q_scale};

    ghost format = { q_scale };

    fn is_allowed(&self) -> bool {
        // Each value of the type has a number that is allowed.
        true
    }

    fn width(&self) -> u64 {
        2
    }

    fn put(&self, out: &mut Bits) -> Result<(), Memory> {
        out.push_num(2, u64::from(self.number()))
    }

    #[inline(always)]
    fn scan(_alloc: Global, cur: &mut Cursor<'_>) -> Result<Self, DecodeError> {
        read_named!(cur, 2, Scale, Spare)
    }
}

impl Same for Scale {
    fn same(&self, other: &Scale) -> bool {
        self == other
    }
}
