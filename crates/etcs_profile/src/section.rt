//! `Section`: a section of a movement authority, perhaps with a `SectionTimer`.

use crate::each::{each_allowed, each_same, put_each, scan_each};
use etcs_bits::{Bits, Cursor, DecodeError, Distance, Layout, Memory, Plain, Same, Time};
use std::alloc::Global;

/// A section of a movement authority: a stretch of track that follows the section before it. 16
/// bits, and 25 more for a timer (SUBSET-026, 3.8 and 7.4.2).
#[derive(Clone, Copy, Debug, PartialEq, Eq)]
pub struct Section {
    /// L_SECTION, 15 bits: the length of the section, in the packet's scale.
    pub length: Distance,
    /// Q_SECTIONTIMER, 1 bit, and how long the section is valid, if that is limited.
    pub timer: Option<SectionTimer>,
}

impl Layout for Section {
    ghost use Rattle.etcs_profile.specs.Parts.{section};

    ghost format = { section };

    #[tactic(auto, using(etcs_bits::proofs::PutLemmas::allowed_both, etcs_bits::proofs::FitLemmas::some_fit))]
    fn is_allowed(&self) -> bool {
        each_allowed!(self; length, timer)
    }

    #[tactic(auto, using(etcs_bits::proofs::WidthLemmas::width_both), unfolding(etcs_bits::specs::layout::Rows::alone))]
    fn width(&self) -> u64 {
        self.timer.width().saturating_add(15)
    }

    #[tactic(auto, using(etcs_bits::proofs::PutLemmas::puts_then, etcs_bits::proofs::PutLemmas::keeps_front, etcs_bits::proofs::PutLemmas::allowed_both))]
    fn put(&self, out: &mut Bits) -> Result<(), Memory> {
        put_each!(self, out; length, timer)
    }

    #[inline(always)]
    fn scan(alloc: Global, cur: &mut Cursor<'_>) -> Result<Self, DecodeError> {
        // Far from the end the length and the qualifier are there.
        if let Some(head) = cur.take_two(15, 1) {
            let length = Plain::of_field(head.0);
            if head.1 == 0 {
                return Ok(Section {
                    length,
                    timer: None,
                });
            }
            let timer = SectionTimer::scan(alloc, cur)?;
            return Ok(Section {
                length,
                timer: Some(timer),
            });
        }
        scan_each!(Section, alloc, cur; length, timer)
    }
}

impl Same for Section {
    fn same(&self, other: &Self) -> bool {
        each_same!(self, other; length, timer)
    }
}

/// How long a section is valid: 25 bits (SUBSET-026, 3.8 and 7.4.2).
#[derive(Clone, Copy, Debug, PartialEq, Eq)]
pub struct SectionTimer {
    /// T_SECTIONTIMER, 10 bits: how long the section is valid, in seconds. 1023 means no time-out.
    /// The limit does not apply if the train first passes the place where the timer stops.
    pub time: Time,
    /// D_SECTIONTIMERSTOPLOC, 15 bits: the distance from the beginning of the section to the place
    /// where the timer stops, in the packet's scale.
    pub stop: Distance,
}

impl Layout for SectionTimer {
    ghost use Rattle.etcs_profile.specs.Parts.{section_timer};

    ghost format = { section_timer };

    #[tactic(auto, using(etcs_bits::proofs::PutLemmas::allowed_both))]
    fn is_allowed(&self) -> bool {
        each_allowed!(self; time, stop)
    }

    #[tactic(auto, using(etcs_bits::proofs::WidthLemmas::width_both), unfolding(etcs_bits::specs::layout::Rows::alone))]
    fn width(&self) -> u64 {
        25
    }

    #[tactic(auto, using(etcs_bits::proofs::PutLemmas::puts_then, etcs_bits::proofs::PutLemmas::keeps_front, etcs_bits::proofs::PutLemmas::allowed_both))]
    fn put(&self, out: &mut Bits) -> Result<(), Memory> {
        put_each!(self, out; time, stop)
    }

    #[inline(always)]
    fn scan(alloc: Global, cur: &mut Cursor<'_>) -> Result<Self, DecodeError> {
        // Far from the end both fields are there.
        if let Some(numbers) = cur.take_two(10, 15) {
            return Ok(SectionTimer {
                time: Plain::of_field(numbers.0),
                stop: Plain::of_field(numbers.1),
            });
        }
        scan_each!(SectionTimer, alloc, cur; time, stop)
    }
}

impl Same for SectionTimer {
    fn same(&self, other: &Self) -> bool {
        each_same!(self, other; time, stop)
    }
}
