//! The JSON form of `Terms`, the members that both movement authorities have after their head.

ghost use Rattle.std.specs.Prelude.{◌≡◌};
ghost use Rattle.etcs_profile.specs.Authority.{authority_value};
ghost use Rattle.etcs_json.specs.Authority.{section, terms};
ghost use Rattle.etcs_schema.specs.Reading.{bounded_list};
ghost use Rattle.etcs_schema.specs.Codec.{object};

use crate::members::{FromJson, ReadMembers, make_record, pairs};
use crate::reading::read_list;
use etcs_bits::{Dir, Distance, Scale, Speed, Time};
use etcs_profile::{Authority, BuildError, DangerPoint, EndTimer, Overlap, Section, SectionTimer};
use etcs_schema::{FormError, JsonValue};
use std::alloc::Global;
use std::marker::Model;

// The sections before the end section, at most 31.
#[derive(Drop)]
struct Sections {
    value: Vec<Section>,
}

impl Model for Sections {
    ghost use Rattle.std.specs.Prelude.{◌<◌, List, length};
    ghost use Rattle.etcs_profile.specs.declared.section.Section.{Section};

    ghost Value = { List Section };

    ghost view = { λ s. s.value.items };

    ghost invariant = { λ s. length s.value.items < 32 };
}

impl FromJson for Sections {
    ghost reads = { bounded_list (object section).of 0 31 };

    #[tactic(auto, using(crate::proofs::ReadLemmas::few_listed))]
    fn from_json<N: JsonValue>(alloc: Global, node: &N) -> Result<Sections, FormError> {
        let value = read_list(alloc, node, 0, 31)?;
        Ok(Sections { value })
    }
}

/// The conditions of a movement authority, as they are read.
#[derive(Drop)]
pub(crate) struct Terms {
    end_speed: Speed,
    end_timeout: Time,
    sections: Vec<Section>,
    l_endsection: Distance,
    section_timer: Option<SectionTimer>,
    end_timer: Option<EndTimer>,
    danger_point: Option<DangerPoint>,
    overlap: Option<Overlap>,
}

impl Model for Terms {
    ghost use Rattle.std.specs.Prelude.{◌<◌, length};
    ghost use Rattle.etcs_profile.specs.Terms.{TermsValue, terms_value};

    ghost Value = { TermsValue };

    ghost view = { λ t. terms_value t.end_speed t.end_timeout t.sections.items t.l_endsection
        t.section_timer t.end_timer t.danger_point t.overlap };

    ghost invariant = { λ t. length t.sections.items < 32 };
}

impl ReadMembers for Terms {
    type Keys = ();

    ghost reads = { λ _. terms.of };

    #[tactic(auto, unfolding(crate::specs::Authority::terms, crate::specs::Authority::end_parts))]
    fn read<N: JsonValue>(alloc: Global, node: &N, _keys: ()) -> Result<Terms, FormError> {
        let keys = pairs!("section_timer", "end_timer", "danger_point", "overlap");
        let keys = pairs!("end_speed", "end_timeout", "sections", "l_endsection", keys);
        let found = ReadMembers::read(alloc, node, keys)?;
        let (end_speed, (end_timeout, (Sections { value: sections }, rest))) = found;
        Ok(
            make_record!(Terms, rest; [end_speed, end_timeout, sections,]
            l_endsection, section_timer, end_timer, danger_point, overlap),
        )
    }
}

/// The movement authority with these conditions: packet 12 if there is a `main` speed, else packet
/// 15. It is never too long.
#[tactic(auto, using(crate::proofs::AuthorityWidth::authority_short))]
pub(crate) fn authority_of(dir: Dir, scale: Scale, main: Option<Speed>, terms: Terms) -> Authority
    ensures { result ≡ authority_value dir scale main terms }
{
    let built = Authority::new(
        dir,
        scale,
        main,
        terms.end_speed,
        terms.end_timeout,
        terms.sections,
        terms.l_endsection,
        terms.section_timer,
        terms.end_timer,
        terms.danger_point,
        terms.overlap,
    );
    match built {
        Ok(authority) => authority,
        Err(BuildError::TooMany) => unreachable!("there are at most 31 sections"),
        Err(BuildError::TooLong) => unreachable!("31 sections are not too long"),
    }
}
