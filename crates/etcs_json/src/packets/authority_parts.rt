//! The JSON forms of the parts of movement authorities: `Section`, `SectionTimer`, `EndTimer`, `DangerPoint` and
//! `Overlap`.

ghost use Rattle.etcs_json.specs.Authority.{danger_point, end_timer, overlap, section, section_timer};
ghost use Rattle.etcs_schema.specs.Codec.{whole};

use crate::Record;
use crate::members::{Member, OptionalMember, check_members, read_record, write_members};
use crate::record::{LayoutRecord, ObjectCodec};
use etcs_bits::Memory;
use etcs_profile::{DangerPoint, EndTimer, Overlap, Section, SectionTimer};
use etcs_schema::{FormError, JsonValue, TokenWriter};
use std::alloc::Global;

impl Record for SectionTimer {
    ghost object = { whole section_timer };
}

impl LayoutRecord for SectionTimer {
    ghost keeps = { λ x allowed. allowed tt };
}

#[tactic(auto, unfolding(crate::specs::Authority::section_timer, etcs_schema::specs::Reading::only_keys, etcs_schema::specs::Reading::required_member))]
impl ObjectCodec for SectionTimer {
    fn write_members<M: TokenWriter>(&self, out: &mut M) -> Result<(), Memory> {
        write_members!(out;
            Member("d_sectiontimerstoploc", &self.stop),
            Member("t_sectiontimer", &self.time),
        )
    }

    fn read_object<N: JsonValue>(alloc: Global, node: &N) -> Result<Self, FormError> {
        check_members!(alloc, node; "d_sectiontimerstoploc", "t_sectiontimer");
        read_record!(SectionTimer, alloc, node;
            time "t_sectiontimer",
            stop "d_sectiontimerstoploc",
        )
    }
}

impl Record for Section {
    ghost object = { whole section };
}

impl LayoutRecord for Section {
    ghost keeps = { λ x allowed. allowed tt };
}

#[tactic(auto, unfolding(crate::specs::Authority::section))]
impl ObjectCodec for Section {
    fn write_members<M: TokenWriter>(&self, out: &mut M) -> Result<(), Memory> {
        write_members!(out;
            Member("l_section", &self.length),
            OptionalMember("section_timer", &self.timer),
        )
    }

    fn read_object<N: JsonValue>(alloc: Global, node: &N) -> Result<Self, FormError> {
        check_members!(alloc, node; "l_section", "section_timer");
        read_record!(Section, alloc, node;
            length "l_section",
            timer "section_timer",
        )
    }
}

impl Record for EndTimer {
    ghost object = { whole end_timer };
}

impl LayoutRecord for EndTimer {
    ghost keeps = { λ x allowed. allowed tt };
}

#[tactic(auto, unfolding(crate::specs::Authority::end_timer, etcs_schema::specs::Reading::only_keys, etcs_schema::specs::Reading::required_member))]
impl ObjectCodec for EndTimer {
    fn write_members<M: TokenWriter>(&self, out: &mut M) -> Result<(), Memory> {
        write_members!(out;
            Member("d_endtimerstartloc", &self.start),
            Member("t_endtimer", &self.time),
        )
    }

    fn read_object<N: JsonValue>(alloc: Global, node: &N) -> Result<Self, FormError> {
        check_members!(alloc, node; "d_endtimerstartloc", "t_endtimer");
        read_record!(EndTimer, alloc, node;
            time "t_endtimer",
            start "d_endtimerstartloc",
        )
    }
}

impl Record for DangerPoint {
    ghost object = { whole danger_point };
}

impl LayoutRecord for DangerPoint {
    ghost keeps = { λ x allowed. allowed tt };
}

#[tactic(auto, unfolding(crate::specs::Authority::danger_point))]
impl ObjectCodec for DangerPoint {
    fn write_members<M: TokenWriter>(&self, out: &mut M) -> Result<(), Memory> {
        write_members!(out;
            Member("d_dp", &self.distance),
            Member("v_releasedp", &self.release_speed),
        )
    }

    fn read_object<N: JsonValue>(alloc: Global, node: &N) -> Result<Self, FormError> {
        check_members!(alloc, node; "d_dp", "v_releasedp");
        read_record!(DangerPoint, alloc, node;
            distance "d_dp",
            release_speed "v_releasedp",
        )
    }
}

impl Record for Overlap {
    ghost object = { whole overlap };
}

impl LayoutRecord for Overlap {
    ghost keeps = { λ x allowed. allowed tt };
}

#[tactic(auto, unfolding(crate::specs::Authority::overlap))]
impl ObjectCodec for Overlap {
    fn write_members<M: TokenWriter>(&self, out: &mut M) -> Result<(), Memory> {
        write_members!(out;
            Member("d_ol", &self.length),
            Member("d_startol", &self.start),
            Member("t_ol", &self.time),
            Member("v_releaseol", &self.release_speed),
        )
    }

    fn read_object<N: JsonValue>(alloc: Global, node: &N) -> Result<Self, FormError> {
        check_members!(alloc, node; "d_ol", "d_startol", "t_ol", "v_releaseol");
        read_record!(Overlap, alloc, node;
            start "d_startol",
            time "t_ol",
            length "d_ol",
            release_speed "v_releaseol",
        )
    }
}
