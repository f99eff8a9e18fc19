//! `EndTimer`: the timer of a movement authority's end section.

use crate::each::{each_allowed, each_same, put_each, scan_each};
use etcs_bits::{Bits, Cursor, DecodeError, Distance, Layout, Memory, Plain, Same, Time};
use std::alloc::Global;

/// How long the end section is granted: 25 bits (SUBSET-026, 3.8 and 7.4.2).
#[derive(Clone, Copy, Debug, PartialEq, Eq)]
pub struct EndTimer {
    /// T_ENDTIMER, 10 bits: how long the end section is granted, in seconds. 1023 means no
    /// time-out.
    pub time: Time,
    /// D_ENDTIMERSTARTLOC, 15 bits: the distance from the place where the timer starts to the end
    /// of the end section, in the packet's scale.
    pub start: Distance,
}

impl Layout for EndTimer {
    ghost use Rattle.etcs_profile.specs.Parts.{end_timer};

    ghost format = { end_timer };

    #[tactic(auto, using(etcs_bits::proofs::PutLemmas::allowed_both))]
    fn is_allowed(&self) -> bool {
        each_allowed!(self; time, start)
    }

    #[tactic(auto, using(etcs_bits::proofs::WidthLemmas::width_both), unfolding(etcs_bits::specs::layout::Rows::alone))]
    fn width(&self) -> u64 {
        25
    }

    #[tactic(auto, using(etcs_bits::proofs::PutLemmas::puts_then, etcs_bits::proofs::PutLemmas::keeps_front, etcs_bits::proofs::PutLemmas::allowed_both))]
    fn put(&self, out: &mut Bits) -> Result<(), Memory> {
        put_each!(self, out; time, start)
    }

    #[inline(always)]
    fn scan(alloc: Global, cur: &mut Cursor<'_>) -> Result<Self, DecodeError> {
        // Far from the end both fields are there.
        if let Some(numbers) = cur.take_two(10, 15) {
            return Ok(EndTimer {
                time: Plain::of_field(numbers.0),
                start: Plain::of_field(numbers.1),
            });
        }
        scan_each!(EndTimer, alloc, cur; time, start)
    }
}

impl Same for EndTimer {
    fn same(&self, other: &Self) -> bool {
        each_same!(self, other; time, start)
    }
}
