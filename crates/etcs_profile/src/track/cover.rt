//! `CoverMarker`: virtual balise cover marker, packet 0.

use crate::number::Number;
use etcs_bits::{Bits, Cursor, DecodeError, Layout, Memory, Plain, Same};
use std::alloc::Global;

/// Packet 0, the virtual balise cover marker. A train ignores the telegram if the train has the
/// cover of this number set for the header's country or region. The packet has 14 bits. It has
/// neither Q_DIR nor L_PACKET (SUBSET-026, 3.15.9 and 7.4.2).
#[derive(Clone, Copy, Debug, PartialEq, Eq)]
pub struct CoverMarker {
    /// The number of the cover: NID_VBCMK, 6 bits.
    pub marker: Plain<6>,
}

impl Layout for CoverMarker {
    ghost use Rattle.etcs_profile.specs.Cover.{cover_marker};

    ghost format = { cover_marker };

    #[tactic(auto, using(etcs_bits::proofs::PutLemmas::allowed_both))]
    fn is_allowed(&self) -> bool {
        let number = Number::<0>;
        number.is_allowed() && self.marker.is_allowed()
    }

    #[tactic(auto, using(etcs_bits::proofs::WidthLemmas::width_both), unfolding(etcs_bits::specs::layout::Rows::alone))]
    fn width(&self) -> u64 {
        14
    }

    #[tactic(auto, using(etcs_bits::proofs::PutLemmas::puts_then, etcs_bits::proofs::PutLemmas::keeps_front, etcs_bits::proofs::PutLemmas::allowed_both))]
    fn put(&self, out: &mut Bits) -> Result<(), Memory> {
        let number = Number::<0>;
        number.put(out)?;
        self.marker.put(out)
    }

    fn scan(alloc: Global, cur: &mut Cursor<'_>) -> Result<Self, DecodeError> {
        let _number = Number::<0>::scan(alloc, cur)?;
        let marker = Plain::scan(alloc, cur)?;
        Ok(CoverMarker { marker })
    }
}

impl Same for CoverMarker {
    fn same(&self, other: &Self) -> bool {
        self.marker.same(&other.marker)
    }
}
