//! `Terms`: what the two movement authority packets have in common.

use crate::danger_point::DangerPoint;
use crate::each::{each_allowed, each_same, put_each, scan_each};
use crate::end_timer::EndTimer;
use crate::overlap::Overlap;
use crate::section::{Section, SectionTimer};
use etcs_bits::{Bits, Cursor, DecodeError, Distance, Items, Layout, Memory, Same, Speed, Time};
use std::alloc::Global;
use std::marker::Model;

/// How far a train may run, and under which conditions: the fields of packets 12 and 15 after
/// Q_SCALE and V_MAIN (SUBSET-026, 3.8 and 7.4.2).
#[derive(Debug, Drop)]
pub(crate) struct Terms {
    pub end_speed: Speed,
    pub end_timeout: Time,
    pub sections: Items<Section>,
    pub l_endsection: Distance,
    pub section_timer: Option<SectionTimer>,
    pub end_timer: Option<EndTimer>,
    pub danger_point: Option<DangerPoint>,
    pub overlap: Option<Overlap>,
}

impl Model for Terms {
    ghost use Rattle.std.specs.Prelude.{◌<◌, length};
    ghost use Rattle.etcs_profile.specs.Terms.{TermsValue, terms_value};

    ghost Value = { TermsValue };

    ghost view = { λ t. terms_value t.end_speed t.end_timeout t.sections t.l_endsection
        t.section_timer t.end_timer t.danger_point t.overlap };

    ghost invariant = { λ t. length t.sections < 32 };
}

impl Layout for Terms {
    ghost use Rattle.etcs_profile.specs.Terms.{terms};
    ghost use Rattle.etcs_profile.specs.Growth.{terms_grow};

    ghost format = { terms };

    ghost grows = { terms_grow };

    #[tactic(auto, using(etcs_bits::proofs::PutLemmas::allowed_both, etcs_bits::proofs::FitLemmas::some_fit, etcs_bits::proofs::FitLemmas::all_fit))]
    fn is_allowed(&self) -> bool {
        each_allowed!(
            self; end_speed, end_timeout, sections, l_endsection, section_timer, end_timer,
            danger_point, overlap
        )
    }

    #[tactic(auto, using(etcs_bits::proofs::WidthLemmas::width_both), unfolding(etcs_bits::specs::layout::Rows::alone))]
    fn width(&self) -> u64 {
        self.sections
            .width()
            .saturating_add(self.section_timer.width())
            .saturating_add(self.end_timer.width())
            .saturating_add(self.danger_point.width())
            .saturating_add(self.overlap.width())
            .saturating_add(32)
    }

    #[tactic(auto, using(etcs_bits::proofs::PutLemmas::puts_then, etcs_bits::proofs::PutLemmas::keeps_front, etcs_bits::proofs::PutLemmas::allowed_both))]
    fn put(&self, out: &mut Bits) -> Result<(), Memory> {
        put_each!(
            self, out; end_speed, end_timeout, sections, l_endsection, section_timer, end_timer,
            danger_point, overlap
        )
    }

    #[tactic(auto, using(etcs_bits::proofs::GrowthLemmas::never_grows))]
    fn scan(alloc: Global, cur: &mut Cursor<'_>) -> Result<Self, DecodeError> {
        scan_each!(
            Terms, alloc, cur; end_speed, end_timeout, sections, l_endsection, section_timer,
            end_timer, danger_point, overlap
        )
    }
}

impl Same for Terms {
    fn same(&self, other: &Self) -> bool {
        each_same!(
            self, other; end_speed, end_timeout, sections, l_endsection, section_timer, end_timer,
            danger_point, overlap
        )
    }
}
