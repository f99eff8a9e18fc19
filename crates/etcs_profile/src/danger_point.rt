//! `DangerPoint`: the danger point beyond a movement authority's end.

use crate::each::{each_allowed, each_same, put_each, scan_each};
use etcs_bits::{
    Bits, Cursor, DecodeError, Distance, Layout, Memory, Plain, Ranged, ReleaseSpeed, Same,
};
use std::alloc::Global;

/// The place beyond the end of the authority that the front of a train may reach without danger: 22
/// bits (SUBSET-026, 3.8 and 7.4.2).
#[derive(Clone, Copy, Debug, PartialEq, Eq)]
pub struct DangerPoint {
    /// D_DP, 15 bits: the distance from the end of the authority to the danger point, in the
    /// packet's scale.
    pub distance: Distance,
    /// V_RELEASEDP, 7 bits: the highest speed at which a train may approach the end of the
    /// authority.
    pub release_speed: ReleaseSpeed,
}

impl Layout for DangerPoint {
    ghost use Rattle.etcs_profile.specs.Parts.{danger_point};

    ghost format = { danger_point };

    #[tactic(auto, using(etcs_bits::proofs::PutLemmas::allowed_both))]
    fn is_allowed(&self) -> bool {
        each_allowed!(self; distance, release_speed)
    }

    #[tactic(auto, using(etcs_bits::proofs::WidthLemmas::width_both), unfolding(etcs_bits::specs::layout::Rows::alone))]
    fn width(&self) -> u64 {
        22
    }

    #[tactic(auto, using(etcs_bits::proofs::PutLemmas::puts_then, etcs_bits::proofs::PutLemmas::keeps_front, etcs_bits::proofs::PutLemmas::allowed_both))]
    fn put(&self, out: &mut Bits) -> Result<(), Memory> {
        put_each!(self, out; distance, release_speed)
    }

    #[inline(always)]
    fn scan(alloc: Global, cur: &mut Cursor<'_>) -> Result<Self, DecodeError> {
        // Far from the end both fields are there.
        let mut ahead = cur.fork();
        if let Some(numbers) = ahead.take_two(15, 7) {
            if let Some(release_speed) = Ranged::new(numbers.1 as u32) {
                *cur = ahead;
                return Ok(DangerPoint {
                    distance: Plain::of_field(numbers.0),
                    release_speed,
                });
            }
        }
        scan_each!(DangerPoint, alloc, cur; distance, release_speed)
    }
}

impl Same for DangerPoint {
    fn same(&self, other: &Self) -> bool {
        each_same!(self, other; distance, release_speed)
    }
}
