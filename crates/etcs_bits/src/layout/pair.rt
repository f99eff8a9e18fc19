//! `Layout` and `Same` for pairs: two records, one after the other.

use crate::bits::Bits;
use crate::bits::cursor::Cursor;
use crate::bits::memory::Memory;
use crate::layout::Layout;
use crate::layout::fault::DecodeError;
use crate::layout::same::Same;
use std::alloc::Global;

/// Two records, one after the other without a gap (SUBSET-026, 7.4). A fault of the first is
/// answered first.
#[tactic(auto, using(crate::proofs::PutLemmas::puts_then, crate::proofs::PutLemmas::allowed_both, crate::proofs::GrowthLemmas::first_grows, crate::proofs::GrowthLemmas::second_grows))]
impl<A: Layout, B: Layout> Layout for (A, B) {
    ghost use Rattle.etcs_bits.specs.layout.Format.{◌then◌};
    ghost use Rattle.etcs_bits.specs.layout.Growth.{EitherGrows};

    ghost format = { A.format then B.format };

    ghost fit = { λ p. A.fit p.0 × B.fit p.1 };

    ghost grows = { EitherGrows A.grows A.format.fields B.grows };

    fn is_allowed(&self) -> bool {
        self.0.is_allowed() && self.1.is_allowed()
    }

    #[tactic(auto, using(crate::proofs::WidthLemmas::width_both))]
    fn width(&self) -> u64 {
        self.0.width().saturating_add(self.1.width())
    }

    fn put(&self, out: &mut Bits) -> Result<(), Memory> {
        self.0.put(out)?;
        self.1.put(out)
    }

    #[inline(always)]
    fn scan(alloc: Global, cur: &mut Cursor<'_>) -> Result<Self, DecodeError> {
        Ok((Layout::scan(alloc, cur)?, Layout::scan(alloc, cur)?))
    }
}

impl<A: Same, B: Same> Same for (A, B) {
    fn same(&self, other: &Self) -> bool {
        self.0.same(&other.0) && self.1.same(&other.1)
    }
}
