//! `SpeedProfile`, `SpeedElement` and `Difference`: the static speed profile, packet 27.

ghost use Rattle.std.specs.Prelude.{◌==◌, ◌≤◌, length};

use crate::each::{each_allowed, each_same, put_each, scan_each};
use crate::element::Element;
use crate::elements::Elements;
use crate::error::BuildError;
use crate::packet::Packet;
use etcs_bits::{
    Bits, Cursor, DecodeError, DifferenceKind, Dir, Distance, Items, Layout, Memory, Plain, Ranged,
    Same, Scale, Speed, StaticSpeed,
};
use std::alloc::Global;

/// Packet 27, the static speed profile: how fast trains may go, place by place (SUBSET-026, 7.4.2).
pub type SpeedProfile = Packet<27, Elements<SpeedElement>>;

impl Packet<27, Elements<SpeedElement>> {
    ghost use Rattle.etcs_profile.specs.Elements.{profile};
    ghost use Rattle.etcs_profile.specs.Built.{IsBuilt, IsTooLong, HasMany};
    ghost use Rattle.etcs_profile.specs.Track.{speed_element};
    ghost use Rattle.etcs_profile.specs.declared.track.speed.SpeedElement.{SpeedElement};

    /// Makes a static speed profile of these elements. The call takes no memory. After an error the
    /// elements are lost.
    ///
    /// `TooMany`: there are more than 31 elements after the first, or an element has more than 31
    /// differences. `TooLong`: the packet has more than 8,191 bits.
    pub fn new(
        dir: Dir,
        scale: Scale,
        first: SpeedElement,
        further: Vec<SpeedElement>,
    ) -> Result<SpeedProfile, BuildError>
        ensures { IsBuilt result (dir, profile scale first further.items)
            (HasMany (λ (e : SpeedElement). length e.differences ≤ 31) first further.items)
            (IsTooLong 27 speed_element (dir, profile scale first further.items)) }
    {
        Packet::build(dir, scale, first, further)
    }
}

/// Another speed for some trains: 13 bits (SUBSET-026, 7.4.2).
#[derive(Clone, Copy, Debug, PartialEq, Eq)]
pub struct Difference {
    /// Q_DIFF, 2 bits: the kind of category.
    pub kind: DifferenceKind,
    /// NC_CDDIFF if Q_DIFF is 0, NC_DIFF if it is 1 or 2, 4 bits: the category of train. No number
    /// is refused.
    pub category: Plain<4>,
    /// V_DIFF, 7 bits: the speed for trains of this category.
    pub speed: Speed,
}

impl Difference {
    ghost use Rattle.etcs_bits.specs.layout.Reading.{read_rows};
    ghost use Rattle.etcs_bits.specs.layout.Results.{Gives, IfMemory};
    ghost use Rattle.etcs_profile.specs.Track.{difference};

    // Reads the fields one by one, wherever the bits end. It stands apart so that the way of those far
    // from the end saves fewer registers.
    #[inline(never)]
    fn scan_fields(alloc: Global, cur: &mut Cursor<'_>) -> Result<Self, DecodeError>
        ensures gives { Gives difference.rows result (read_rows difference.fields cur.old) cur.new }
        ensures memory { IfMemory result ⊥ }
    {
        scan_each!(Difference, alloc, cur; kind, category, speed)
    }
}

impl Layout for Difference {
    ghost use Rattle.etcs_profile.specs.Track.{difference};

    ghost format = { difference };

    #[tactic(auto, using(etcs_bits::proofs::PutLemmas::allowed_both))]
    fn is_allowed(&self) -> bool {
        each_allowed!(self; kind, category, speed)
    }

    #[tactic(auto, using(etcs_bits::proofs::WidthLemmas::width_both), unfolding(etcs_bits::specs::layout::Rows::alone))]
    fn width(&self) -> u64 {
        13
    }

    #[tactic(auto, using(etcs_bits::proofs::PutLemmas::puts_then, etcs_bits::proofs::PutLemmas::keeps_front, etcs_bits::proofs::PutLemmas::allowed_both))]
    fn put(&self, out: &mut Bits) -> Result<(), Memory> {
        put_each!(self, out; kind, category, speed)
    }

    #[inline(always)]
    fn scan(alloc: Global, cur: &mut Cursor<'_>) -> Result<Self, DecodeError> {
        // Far from the end all fields are there.
        let mut ahead = cur.fork();
        if let Some(numbers) = ahead.take_three(2, 4, 7) {
            if let Some(kind) = Ranged::new(numbers.0 as u32) {
                if let Some(speed) = Ranged::new(numbers.2 as u32) {
                    *cur = ahead;
                    return Ok(Difference {
                        kind,
                        category: Plain::of_field(numbers.1),
                        speed,
                    });
                }
            }
        }
        Difference::scan_fields(alloc, cur)
    }
}

impl Same for Difference {
    fn same(&self, other: &Self) -> bool {
        each_same!(self, other; kind, category, speed)
    }
}

/// An element of packet 27: how fast trains may go from its place onwards. 28 bits, and 13 more for
/// each difference (SUBSET-026, 7.4.2).
#[derive(Debug, Drop)]
pub struct SpeedElement {
    /// D_STATIC, 15 bits: the distance from the element before, in the packet's scale.
    pub distance: Distance,
    /// V_STATIC, 7 bits: the speed. 127 is the end mark: the profile carries no information from
    /// that place.
    pub speed: StaticSpeed,
    /// Q_FRONT, 1 bit: if set, the speed holds only until the front of the train passes the end of
    /// the element. If not, it holds until the rear passes that end.
    pub front: bool,
    /// N_ITER and the other speeds for some trains, at most 31.
    pub differences: Items<Difference>,
}

impl SpeedElement {
    ghost use Rattle.etcs_bits.specs.layout.Reading.{read_rows};
    ghost use Rattle.etcs_bits.specs.layout.Results.{Gives, IfMemory};
    ghost use Rattle.etcs_profile.specs.Track.{speed_element, speed_grows};

    // Reads the fields one by one, wherever the bits end. It stands apart so that the way of those far
    // from the end saves fewer registers.
    #[inline(never)]
    #[tactic(auto, using(etcs_bits::proofs::GrowthLemmas::never_grows))]
    fn scan_fields(alloc: Global, cur: &mut Cursor<'_>) -> Result<Self, DecodeError>
        ensures gives { Gives speed_element.rows result (read_rows speed_element.fields cur.old) cur.new }
        ensures memory { IfMemory result (speed_grows cur.old) }
    {
        scan_each!(SpeedElement, alloc, cur; distance, speed, front, differences)
    }
}

impl Layout for SpeedElement {
    ghost use Rattle.etcs_profile.specs.Track.{speed_element, speed_grows};

    ghost format = { speed_element };

    // The types keep the numbers in range, except the count of differences.
    ghost fit = { λ e. length e.differences ≤ 31 };

    ghost grows = { speed_grows };

    #[tactic(auto, using(etcs_bits::proofs::PutLemmas::allowed_both, etcs_bits::proofs::FitLemmas::all_fit))]
    fn is_allowed(&self) -> bool {
        each_allowed!(self; distance, speed, front, differences)
    }

    #[tactic(auto, using(etcs_bits::proofs::WidthLemmas::width_both), unfolding(etcs_bits::specs::layout::Rows::alone))]
    fn width(&self) -> u64 {
        self.differences.width().saturating_add(23)
    }

    #[tactic(auto, using(etcs_bits::proofs::PutLemmas::puts_then, etcs_bits::proofs::PutLemmas::keeps_front, etcs_bits::proofs::PutLemmas::allowed_both))]
    fn put(&self, out: &mut Bits) -> Result<(), Memory> {
        put_each!(self, out; distance, speed, front, differences)
    }

    #[inline(always)]
    fn scan(alloc: Global, cur: &mut Cursor<'_>) -> Result<Self, DecodeError> {
        // Far from the end all fields are there.
        let mut ahead = cur.fork();
        if let Some(numbers) = ahead.take_three(15, 7, 1) {
            if let Some(speed) = Ranged::new(numbers.1 as u32) {
                *cur = ahead;
                return Ok(SpeedElement {
                    distance: Plain::of_field(numbers.0),
                    speed,
                    front: numbers.2 == 1,
                    differences: Layout::scan(alloc, cur)?,
                });
            }
        }
        SpeedElement::scan_fields(alloc, cur)
    }
}

impl Same for SpeedElement {
    fn same(&self, other: &Self) -> bool {
        each_same!(self, other; distance, speed, front, differences)
    }
}

impl Element for SpeedElement {
    ghost distance_of = { λ e. e.distance };

    ghost marked = { λ e. e.speed == 127 };

    #[inline]
    fn distance(&self) -> u32 {
        self.distance.number()
    }

    #[inline]
    fn is_end(&self) -> bool {
        self.speed.number() == 127
    }
}
