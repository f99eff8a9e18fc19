//! `Identity`, NID_C and NID_BG: the identity of a balise group.

use crate::bits::Bits;
use crate::bits::cursor::Cursor;
use crate::bits::memory::Memory;
use crate::layout::Layout;
use crate::layout::fault::DecodeError;
use crate::layout::same::Same;
use crate::variables::plain::{Country, GroupNumber};
use std::alloc::Global;

/// The identity of a balise group, 24 bits: NID_C and then NID_BG. Every number of their widths is
/// allowed, so the only fault is Short (SUBSET-026, 7.5.1).
#[derive(Clone, Copy, Debug, PartialEq, Eq)]
pub struct Identity {
    /// NID_C, 10 bits: the country or region.
    pub country: Country,
    /// NID_BG, 14 bits: the group's number there.
    pub group: GroupNumber,
}

impl Layout for Identity {
    ghost use Rattle.etcs_bits.specs.variables.Identity.{identity};

    ghost format = { identity };

    #[tactic(auto, using(crate::proofs::PutLemmas::allowed_both))]
    fn is_allowed(&self) -> bool {
        self.country.is_allowed() && self.group.is_allowed()
    }

    #[tactic(auto, using(crate::proofs::WidthLemmas::width_both), unfolding(crate::specs::layout::Rows::alone))]
    fn width(&self) -> u64 {
        24
    }

    #[tactic(auto, using(crate::proofs::PutLemmas::puts_then, crate::proofs::PutLemmas::allowed_both))]
    fn put(&self, out: &mut Bits) -> Result<(), Memory> {
        self.country.put(out)?;
        self.group.put(out)
    }

    #[inline(always)]
    fn scan(alloc: Global, cur: &mut Cursor<'_>) -> Result<Self, DecodeError> {
        Ok(Identity {
            country: Layout::scan(alloc, cur)?,
            group: Layout::scan(alloc, cur)?,
        })
    }
}

impl Same for Identity {
    fn same(&self, other: &Identity) -> bool {
        self.country.same(&other.country) && self.group.same(&other.group)
    }
}
