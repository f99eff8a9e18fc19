//! `Layout` and `Same` for `Option`: a record that is present only if the qualifier before it is 1.

use crate::bits::Bits;
use crate::bits::cursor::Cursor;
use crate::bits::memory::Memory;
use crate::layout::Layout;
use crate::layout::fault::DecodeError;
use crate::layout::same::Same;
use std::alloc::Global;

/// A record after a qualifier of one bit, such as Q_OVERLAP. The qualifier is 1 if the record
/// follows, 0 if it does not. The faults are Short at the qualifier, and the faults of the record
/// (SUBSET-026, 7.4).
#[tactic(auto, using(crate::proofs::PutLemmas::puts_bits, crate::proofs::GrowthLemmas::there_grows), unfolding(crate::specs::layout::Rows::alone))]
impl<T: Layout> Layout for Option<T> {
    ghost use Rattle.std.specs.Prelude.{IfSome};
    ghost use Rattle.etcs_bits.specs.layout.Format.{if_there};
    ghost use Rattle.etcs_bits.specs.layout.Growth.{GrowsIfThere};

    ghost format = { if_there T.format };

    ghost fit = { λ o. IfSome o T.fit };

    ghost grows = { GrowsIfThere T.grows };

    fn is_allowed(&self) -> bool {
        match self {
            None => true,
            Some(record) => record.is_allowed(),
        }
    }

    fn width(&self) -> u64 {
        match self {
            None => 1,
            Some(record) => record.width().saturating_add(1),
        }
    }

    fn put(&self, out: &mut Bits) -> Result<(), Memory> {
        match self {
            None => out.push_num(1, 0),
            Some(record) => {
                out.push_num(1, 1)?;
                record.put(out)
            }
        }
    }

    #[inline(always)]
    fn scan(alloc: Global, cur: &mut Cursor<'_>) -> Result<Self, DecodeError> {
        if cur.take(1)? == 1 {
            Ok(Some(Layout::scan(alloc, cur)?))
        } else {
            Ok(None)
        }
    }
}

impl<T: Same> Same for Option<T> {
    fn same(&self, other: &Self) -> bool {
        match (self, other) {
            (None, None) => true,
            (Some(this), Some(that)) => this.same(that),
            _ => false,
        }
    }
}
