//! `Medium`, Q_MEDIA: the medium that sends a telegram.

ghost use Rattle.std.specs.Prelude.{◌≡◌, ◌↔◌, IsTrue, IsSome, IfSome};

use crate::variables::read_named::read_named;
use crate::{Bits, Cursor, DecodeError, FaultKind, Layout, Memory, Same, refused};
use std::alloc::Global;

/// Q_MEDIA, 1 bit: the medium that sends a telegram. By this project's rule, only a balise (0) is
/// read. The other number is a Loop fault (SUBSET-026, 7.5.1).
#[derive(Clone, Copy, Debug, PartialEq, Eq)]
pub enum Medium {
    /// 0: a balise.
    Balise = 0,
}

impl Medium {
    ghost use Rattle.etcs_bits.specs.variables.Variables.{medium_variable, medium_number};

    /// The value with this number; None for every number but 0.
    #[inline(always)]
    pub fn new(n: u32) -> Option<Medium>
        ensures some { IfSome result (λ v. medium_number v ≡ n) }
        ensures allowed { IsSome result ↔ IsTrue (medium_variable.allows n) }
    {
        match n {
            0 => Some(Medium::Balise),
            _ => None,
        }
    }

    /// The number of a value.
    #[inline]
    pub fn number(self) -> u32
        ensures { result ≡ medium_number self }
    {
        self as u32
    }
}

#[tactic(auto, unfolding(crate::specs::layout::Rows::alone))]
impl Layout for Medium {
    ghost use Rattle.etcs_bits.specs.variables.VariableFormats.{q_media};

    ghost format = { q_media };

    fn is_allowed(&self) -> bool {
        // Each value of the type has a number that is allowed.
        true
    }

    fn width(&self) -> u64 {
        1
    }

    fn put(&self, out: &mut Bits) -> Result<(), Memory> {
        out.push_num(1, u64::from(self.number()))
    }

    #[inline(always)]
    fn scan(_alloc: Global, cur: &mut Cursor<'_>) -> Result<Self, DecodeError> {
        read_named!(cur, 1, Medium, Loop)
    }
}

impl Same for Medium {
    fn same(&self, other: &Medium) -> bool {
        self == other
    }
}
