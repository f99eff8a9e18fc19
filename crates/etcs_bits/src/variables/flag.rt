//! `Layout` and `Same` for `bool`: variables of one bit.

use crate::bits::Bits;
use crate::bits::cursor::Cursor;
use crate::bits::memory::Memory;
use crate::layout::Layout;
use crate::layout::fault::DecodeError;
use crate::layout::same::Same;
use std::alloc::Global;

/// A flag of one bit, such as Q_LINK: 1 is true (SUBSET-026, 7.5.1).
#[tactic(auto, unfolding(crate::specs::layout::Rows::alone))]
impl Layout for bool {
    ghost use Rattle.etcs_bits.specs.layout.Format.{flag};

    ghost format = { flag };

    fn is_allowed(&self) -> bool {
        // Each value of the type has a number that is allowed.
        true
    }

    fn width(&self) -> u64 {
        1
    }

    fn put(&self, out: &mut Bits) -> Result<(), Memory> {
        match *self {
            false => out.push_num(1, 0),
            true => out.push_num(1, 1),
        }
    }

    #[inline(always)]
    fn scan(_alloc: Global, cur: &mut Cursor<'_>) -> Result<Self, DecodeError> {
        Ok(cur.take(1)? == 1)
    }
}

impl Same for bool {
    fn same(&self, other: &bool) -> bool {
        self == other
    }
}
