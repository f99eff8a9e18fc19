//! `Overlap`: the overlap beyond a movement authority's end.

use crate::each::{each_allowed, each_same, put_each, scan_each};
use etcs_bits::{
    Bits, Cursor, DecodeError, Distance, Layout, Memory, Plain, Ranged, ReleaseSpeed, Same, Time,
};
use std::alloc::Global;

/// The track beyond the end of the authority that is kept free for a while: 47 bits (SUBSET-026,
/// 3.8 and 7.4.2).
#[derive(Clone, Copy, Debug, PartialEq, Eq)]
pub struct Overlap {
    /// D_STARTOL, 15 bits: the distance from the place where the overlap's timer starts to the end
    /// of the authority, in the packet's scale.
    pub start: Distance,
    /// T_OL, 10 bits: how long the overlap is kept, in seconds. 1023 means no time-out.
    pub time: Time,
    /// D_OL, 15 bits: the length of the overlap beyond the end of the authority, in the packet's
    /// scale.
    pub length: Distance,
    /// V_RELEASEOL, 7 bits: the highest speed at which a train may approach the end of the
    /// authority.
    pub release_speed: ReleaseSpeed,
}

impl Layout for Overlap {
    ghost use Rattle.etcs_profile.specs.Parts.{overlap};

    ghost format = { overlap };

    #[tactic(auto, using(etcs_bits::proofs::PutLemmas::allowed_both))]
    fn is_allowed(&self) -> bool {
        each_allowed!(self; start, time, length, release_speed)
    }

    #[tactic(auto, using(etcs_bits::proofs::WidthLemmas::width_both), unfolding(etcs_bits::specs::layout::Rows::alone))]
    fn width(&self) -> u64 {
        47
    }

    #[tactic(auto, using(etcs_bits::proofs::PutLemmas::puts_then, etcs_bits::proofs::PutLemmas::keeps_front, etcs_bits::proofs::PutLemmas::allowed_both))]
    fn put(&self, out: &mut Bits) -> Result<(), Memory> {
        put_each!(self, out; start, time, length, release_speed)
    }

    fn scan(alloc: Global, cur: &mut Cursor<'_>) -> Result<Self, DecodeError> {
        // Far from the end all fields are there.
        let mut ahead = cur.fork();
        if let Some(head) = ahead.take_two(15, 10) {
            if let Some(tail) = ahead.take_two(15, 7) {
                if let Some(release_speed) = Ranged::new(tail.1 as u32) {
                    *cur = ahead;
                    return Ok(Overlap {
                        start: Plain::of_field(head.0),
                        time: Plain::of_field(head.1),
                        length: Plain::of_field(tail.0),
                        release_speed,
                    });
                }
            }
        }
        scan_each!(Overlap, alloc, cur; start, time, length, release_speed)
    }
}

impl Same for Overlap {
    fn same(&self, other: &Self) -> bool {
        each_same!(self, other; start, time, length, release_speed)
    }
}
