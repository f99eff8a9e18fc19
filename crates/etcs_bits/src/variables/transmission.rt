//! `Transmission`, Q_UPDOWN: the direction in which a telegram goes.

ghost use Rattle.std.specs.Prelude.{◌≡◌, ◌↔◌, IsTrue, IsSome, IfSome};

use crate::variables::read_named::read_named;
use crate::{Bits, Cursor, DecodeError, FaultKind, Layout, Memory, Same, refused};
use std::alloc::Global;

/// Q_UPDOWN, 1 bit: the direction in which a telegram goes. By this project's rule, only track to
/// train (1) is read. The other number is a Downlink fault (SUBSET-026, 7.5.1).
#[derive(Clone, Copy, Debug, PartialEq, Eq)]
pub enum Transmission {
    /// 1: from the track to the train.
    TrackToTrain = 1,
}

impl Transmission {
    ghost use Rattle.etcs_bits.specs.variables.Variables.{transmission_variable, transmission_number};

    /// The value with this number; None for every number but 1.
    #[inline(always)]
    pub fn new(n: u32) -> Option<Transmission>
        ensures some { IfSome result (λ v. transmission_number v ≡ n) }
        ensures allowed { IsSome result ↔ IsTrue (transmission_variable.allows n) }
    {
        match n {
            1 => Some(Transmission::TrackToTrain),
            _ => None,
        }
    }

    /// The number of a value.
    #[inline]
    pub fn number(self) -> u32
        ensures { result ≡ transmission_number self }
    {
        self as u32
    }
}

#[tactic(auto, unfolding(crate::specs::layout::Rows::alone))]
impl Layout for Transmission {
    ghost use Rattle.etcs_bits.specs.variables.VariableFormats.{q_updown};

    ghost format = { q_updown };

    fn is_allowed(&self) -> bool {
        // Each value of the type has a number that is allowed.
        true
    }

    fn width(&self) -> u64 {
        1
    }

    fn put(&self, out: &mut Bits) -> Result<(), Memory> {
        out.push_num(1, u64::from(self.number()))
    }

    #[inline(always)]
    fn scan(_alloc: Global, cur: &mut Cursor<'_>) -> Result<Self, DecodeError> {
        read_named!(cur, 1, Transmission, Downlink)
    }
}

impl Same for Transmission {
    fn same(&self, other: &Transmission) -> bool {
        self == other
    }
}
