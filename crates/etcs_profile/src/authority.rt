//! `Authority`: the movement authorities, packets 12 and 15, and `Authority::end`, how far they let a train run.

ghost use Rattle.std.specs.Prelude.{◌≡◌, ◌↔◌, ◌<◌, ◌≤◌, ◌*◌, length, sum_by, IsSome, IfSome};
ghost use Rattle.etcs_bits.specs.layout.Format.{◌then◌};
ghost use Rattle.etcs_bits.specs.layout.Growth.{GrowsAfter};
ghost use Rattle.etcs_bits.specs.layout.Reading.{read_rows};
ghost use Rattle.etcs_bits.specs.layout.Results.{Gives, IfMemory};
ghost use Rattle.etcs_bits.specs.variables.VariableFormats.{q_dir};

use crate::danger_point::DangerPoint;
use crate::end_timer::EndTimer;
use crate::error::BuildError;
use crate::factor::factor;
use crate::number::other_packet;
use crate::overlap::Overlap;
use crate::section::{Section, SectionTimer};
use crate::terms::Terms;
use etcs_bits::{
    Bits, Body, Cursor, DecodeError, Dir, Distance, Items, Layout, Memory, Same, Scale, Speed, Time,
};
use std::alloc::Global;
use std::marker::Model;

/// A movement authority: how far a train may run, and under which conditions. Packet 12 is the
/// authority of level 1, packet 15 that of levels 2 and 3. Only packet 12 has V_MAIN, the
/// signalling related speed restriction (SUBSET-026, 3.8 and 7.4.2).
#[derive(Debug, Drop)]
pub struct Authority {
    packet: ByLevel,
}

// The fields after NID_PACKET.
#[derive(Debug, Drop)]
enum ByLevel {
    // Packet 12: V_MAIN comes after Q_SCALE.
    Level1((Dir, Body<10, (Scale, (Speed, Terms))>)),
    // Packet 15.
    Level2((Dir, Body<10, (Scale, Terms)>)),
}

impl Model for Authority {
    ghost use Rattle.etcs_profile.specs.Authority.{AuthorityValue};
    ghost use Rattle.etcs_profile.specs.AuthorityView.{authority_of_view};

    ghost Value = { AuthorityValue };

    ghost view = { λ a. authority_of_view a.packet };
}

// Reads Q_DIR, and what follows it. After an error the cursor may stand anywhere.
#[inline]
fn scan_directed<B: Layout>(alloc: Global, cur: &mut Cursor<'_>) -> Result<(Dir, B), DecodeError>
    ensures gives { Gives (q_dir then B.format).rows result (read_rows (q_dir then B.format).fields cur.old) cur.new }
    ensures memory { IfMemory result (GrowsAfter q_dir.fields B.grows cur.old) }
{
    let dir = Dir::scan(alloc, cur)?;
    let body = B::scan(alloc, cur)?;
    Ok((dir, body))
}

// The length of all sections together.
fn length_of(sections: &[Section]) -> u64
    requires { length sections.now < 32 }
    ensures sum { result ≡ sum_by (λ s. s.length) sections.now }
    ensures small { result ≤ 31 * 32767 }
{
    let mut sum = 0;
    'sections: for section in sections {
        sum += u64::from(section.length.number());
    }
    sum
}

impl Authority {
    ghost use Rattle.etcs_bits.specs.layout.Rows.{width};
    ghost use Rattle.etcs_profile.specs.Terms.{terms_value};
    ghost use Rattle.etcs_profile.specs.Authority.{authority_value, authority, authority_end, authority_limit, IsAuthorityTooLong};
    ghost use Rattle.etcs_profile.specs.Built.{IsBuilt};

    /// Makes a movement authority of these parts: packet 12 if there is a `main` speed, else packet
    /// 15. The call takes no memory. After an error the sections are lost.
    ///
    /// `TooMany`: there are more than 31 sections. `TooLong`: the packet has more than 8,191 bits,
    /// which no list of 31 sections reaches.
    pub fn new(
        dir: Dir,
        scale: Scale,
        main: Option<Speed>,
        end_speed: Speed,
        end_timeout: Time,
        sections: Vec<Section>,
        l_endsection: Distance,
        section_timer: Option<SectionTimer>,
        end_timer: Option<EndTimer>,
        danger_point: Option<DangerPoint>,
        overlap: Option<Overlap>,
    ) -> Result<Authority, BuildError>
        ensures { IsBuilt result
            (authority_value dir scale main (terms_value end_speed end_timeout sections.items
            l_endsection section_timer end_timer danger_point overlap))
            (31 < length sections.items)
            (IsAuthorityTooLong (authority_value dir scale main (terms_value end_speed end_timeout
            sections.items l_endsection section_timer end_timer danger_point overlap))) }
    {
        if 31 < sections.len() {
            return Err(BuildError::TooMany);
        }
        let terms = Terms {
            end_speed,
            end_timeout,
            sections: Items::new(sections),
            l_endsection,
            section_timer,
            end_timer,
            danger_point,
            overlap,
        };
        Authority::of(dir, scale, main, terms).ok_or(BuildError::TooLong)
    }

    // The packet of these parts. None if it has more than 8,191 bits.
    #[tactic(auto, unfolding(etcs_bits::specs::layout::Rows::alone))]
    fn of(dir: Dir, scale: Scale, main: Option<Speed>, terms: Terms) -> Option<Authority>
        ensures some { IfSome result (λ a. a ≡ authority_value dir scale main terms) }
        ensures few { IsSome result ↔ (width (authority.rows (authority_value dir scale main terms)) ≤ 8191) }
    {
        match main {
            Some(main) => {
                let body = Body::new((scale, (main, terms)))?;
                let packet = ByLevel::Level1((dir, body));
                Some(Authority { packet })
            }
            None => {
                let body = Body::new((scale, terms))?;
                let packet = ByLevel::Level2((dir, body));
                Some(Authority { packet })
            }
        }
    }

    // The part that both packets have.
    fn terms(&self) -> &Terms
        ensures { result.now ≡ self.now.terms }
    {
        match &self.packet {
            ByLevel::Level1(packet) => &packet.1.content().1.1,
            ByLevel::Level2(packet) => &packet.1.content().1,
        }
    }

    /// Q_DIR: the running directions that the packet is for.
    pub fn dir(&self) -> Dir
        ensures { result ≡ self.now.dir }
    {
        match &self.packet {
            ByLevel::Level1(packet) => packet.0,
            ByLevel::Level2(packet) => packet.0,
        }
    }

    /// Q_SCALE: the unit of all distances.
    pub fn scale(&self) -> Scale
        ensures { result ≡ self.now.scale }
    {
        match &self.packet {
            ByLevel::Level1(packet) => packet.1.content().0,
            ByLevel::Level2(packet) => packet.1.content().0,
        }
    }

    /// V_MAIN: the signalling related speed restriction, in steps of 5 km/h. Only packet 12 has it.
    pub fn main(&self) -> Option<Speed>
        ensures { result ≡ self.now.main }
    {
        match &self.packet {
            ByLevel::Level1(packet) => Some(packet.1.content().1.0),
            ByLevel::Level2(_) => None,
        }
    }

    /// V_LOA: the speed allowed at the end of the authority, in steps of 5 km/h.
    pub fn end_speed(&self) -> Speed
        ensures { result ≡ self.now.terms.end_speed }
    {
        self.terms().end_speed
    }

    /// T_LOA: how long the speed at the end is allowed, in seconds. 1023 means no time-out.
    pub fn end_timeout(&self) -> Time
        ensures { result ≡ self.now.terms.end_timeout }
    {
        self.terms().end_timeout
    }

    /// The sections before the end section, in order. There are at most 31.
    pub fn sections(&self) -> &[Section]
        ensures sections { result.now ≡ self.now.terms.sections }
        ensures few { length result.now < 32 }
    {
        self.terms().sections.as_slice()
    }

    /// L_ENDSECTION: the length of the end section, in the packet's scale.
    pub fn l_endsection(&self) -> Distance
        ensures { result ≡ self.now.terms.l_endsection }
    {
        self.terms().l_endsection
    }

    /// How long the end section is valid as a section, if that is limited.
    pub fn section_timer(&self) -> Option<SectionTimer>
        ensures { result ≡ self.now.terms.section_timer }
    {
        self.terms().section_timer
    }

    /// The timer that limits the end section, if there is one.
    pub fn end_timer(&self) -> Option<EndTimer>
        ensures { result ≡ self.now.terms.end_timer }
    {
        self.terms().end_timer
    }

    /// The danger point, if one is given.
    pub fn danger_point(&self) -> Option<DangerPoint>
        ensures { result ≡ self.now.terms.danger_point }
    {
        self.terms().danger_point
    }

    /// The overlap, if one is given.
    pub fn overlap(&self) -> Option<Overlap>
        ensures { result ≡ self.now.terms.overlap }
    {
        self.terms().overlap
    }

    /// How far the train may run, in decimetres: the length of all sections and the end section
    /// together. It counts from the balise group that sends packet 12. For packet 15 it counts from the
    /// last relevant balise group (LRBG), which the message names. At most 104,854,400.
    pub fn end(&self) -> u64
        ensures sum { result ≡ authority_end self.now }
        ensures bound { result ≤ 104854400 }
    {
        let end_section = u64::from(self.l_endsection().number());
        factor(self.scale()) * (length_of(self.sections()) + end_section)
    }

    /// The supervised location, up to which the train has to know the track, in decimetres from
    /// where `end` counts: the end of the overlap if there is one, else the danger point if there is
    /// one, else the end. Timers are left aside. At most 108,131,100 (SUBSET-026, 3.8).
    pub fn limit(&self) -> u64
        ensures sum { result ≡ authority_limit self.now }
        ensures bound { result ≤ 108131100 }
    {
        let beyond = match (self.overlap(), self.danger_point()) {
            (Some(overlap), _) => overlap.length.number(),
            (None, Some(danger_point)) => danger_point.distance.number(),
            (None, None) => 0,
        };
        self.end() + factor(self.scale()) * u64::from(beyond)
    }
}

impl Authority {
    ghost use Rattle.std.specs.Prelude.{IsTrue};
    ghost use Rattle.etcs_bits.specs.layout.Choice.{read_chosen, numbered_rows};
    ghost use Rattle.etcs_profile.specs.Authority.{authority_numbered, authority_parts};
    ghost use Rattle.etcs_profile.specs.Track.{known_grows};

    /// Reads what follows NID_PACKET, whose number is 12 or 15. After an error the cursor may stand
    /// anywhere.
    pub fn scan_rest(alloc: Global, number: u64, cur: &mut Cursor<'_>) -> Result<Self, DecodeError>
        requires { IsTrue (authority_numbered.allows number) }
        ensures gives { Gives (λ a. numbered_rows authority_numbered (authority_parts a)) result
            (read_chosen authority_numbered number cur.old) cur.new }

        // Memory is asked for only for a list of sections that is not empty.
        ensures memory { IfMemory result (known_grows number cur.old) }
    {
        let packet = if number == 12 {
            ByLevel::Level1(scan_directed(alloc, cur)?)
        } else {
            ByLevel::Level2(scan_directed(alloc, cur)?)
        };
        Ok(Authority { packet })
    }
}

#[tactic(auto, using(etcs_bits::proofs::PutLemmas::puts_bits), unfolding(etcs_bits::specs::layout::Rows::alone))]
impl Layout for Authority {
    ghost use Rattle.etcs_profile.specs.Authority.{authority};
    ghost use Rattle.etcs_profile.specs.Track.{authority_grows};

    ghost format = { authority };

    ghost grows = { authority_grows };

    fn is_allowed(&self) -> bool {
        match &self.packet {
            ByLevel::Level1(packet) => packet.is_allowed(),
            ByLevel::Level2(packet) => packet.is_allowed(),
        }
    }

    fn width(&self) -> u64 {
        let rest = match &self.packet {
            ByLevel::Level1(packet) => packet.width(),
            ByLevel::Level2(packet) => packet.width(),
        };
        rest.saturating_add(8)
    }

    fn put(&self, out: &mut Bits) -> Result<(), Memory> {
        match &self.packet {
            ByLevel::Level1(packet) => {
                out.push_num(8, 12)?;
                packet.put(out)
            }
            ByLevel::Level2(packet) => {
                out.push_num(8, 15)?;
                packet.put(out)
            }
        }
    }

    fn scan(alloc: Global, cur: &mut Cursor<'_>) -> Result<Self, DecodeError> {
        let at = cur.at();
        let number = cur.take(8)?;
        if number != 12 && number != 15 {
            return Err(other_packet(at, cur.at()));
        }
        Authority::scan_rest(alloc, number, cur)
    }
}

impl Same for Authority {
    fn same(&self, other: &Self) -> bool {
        match (&self.packet, &other.packet) {
            (ByLevel::Level1(this), ByLevel::Level1(that)) => this.same(that),
            (ByLevel::Level2(this), ByLevel::Level2(that)) => this.same(that),
            _ => false,
        }
    }
}
