//! `Version`, M_VERSION: the system version of a telegram.

ghost use Rattle.std.specs.Prelude.{◌≡◌, ◌↔◌, IsTrue, IsSome, IfSome};

use crate::variables::read_named::read_named;
use crate::{Bits, Cursor, DecodeError, FaultKind, Layout, Memory, Same, refused};
use std::alloc::Global;

/// M_VERSION, 7 bits: the system version that a telegram is written for. By this project's rule,
/// only 2.0 (32) and 2.1 (33) are read. Any other number is a Version fault (SUBSET-026, 7.5.1).
#[derive(Clone, Copy, Debug, PartialEq, Eq)]
pub enum Version {
    /// 32: system version 2.0.
    V2_0 = 32,
    /// 33: system version 2.1.
    V2_1 = 33,
}

impl Version {
    ghost use Rattle.etcs_bits.specs.variables.Variables.{version_variable, version_number};

    /// The version with this number; None for every number but 32 and 33.
    #[inline(always)]
    pub fn new(n: u32) -> Option<Version>
        ensures some { IfSome result (λ v. version_number v ≡ n) }
        ensures allowed { IsSome result ↔ IsTrue (version_variable.allows n) }
    {
        match n {
            32 => Some(Version::V2_0),
            33 => Some(Version::V2_1),
            _ => None,
        }
    }

    /// The number of a version.
    #[inline]
    pub fn number(self) -> u32
        ensures { result ≡ version_number self }
    {
        self as u32
    }
}

#[tactic(auto, unfolding(crate::specs::layout::Rows::alone))]
impl Layout for Version {
    ghost use Rattle.etcs_bits.specs.variables.VariableFormats.{m_version};

    ghost format = { m_version };

    fn is_allowed(&self) -> bool {
        // Each value of the type has a number that is allowed.
        true
    }

    fn width(&self) -> u64 {
        7
    }

    fn put(&self, out: &mut Bits) -> Result<(), Memory> {
        out.push_num(7, u64::from(self.number()))
    }

    #[inline(always)]
    fn scan(_alloc: Global, cur: &mut Cursor<'_>) -> Result<Self, DecodeError> {
        read_named!(cur, 7, Version, Version)
    }
}

impl Same for Version {
    fn same(&self, other: &Version) -> bool {
        self == other
    }
}
