//! `Gradient` and `GradientElement`: the gradient profile, packet 21.

ghost use Rattle.std.specs.Prelude.{◌<◌, ◌==◌};

use crate::each::{each_allowed, each_same, put_each, scan_each};
use crate::element::Element;
use crate::elements::Elements;
use crate::error::BuildError;
use crate::packet::Packet;
use etcs_bits::{Bits, Cursor, DecodeError, Dir, Distance, Layout, Memory, Plain, Same, Scale};
use std::alloc::Global;

/// Packet 21, the gradient profile: how steep the track is, place by place (SUBSET-026, 7.4.2).
pub type Gradient = Packet<21, Elements<GradientElement>>;

impl Packet<21, Elements<GradientElement>> {
    ghost use Rattle.std.specs.Prelude.{length};
    ghost use Rattle.etcs_profile.specs.Elements.{profile};
    ghost use Rattle.etcs_profile.specs.Built.{IsBuilt, IsTooLong};
    ghost use Rattle.etcs_profile.specs.Track.{gradient_element};

    /// Makes a gradient profile of these elements. The call takes no memory. After an error the
    /// elements are lost.
    ///
    /// `TooMany`: there are more than 31 elements after the first. `TooLong`: the packet has more
    /// than 8,191 bits, which no list of 32 elements reaches.
    pub fn new(
        dir: Dir,
        scale: Scale,
        first: GradientElement,
        further: Vec<GradientElement>,
    ) -> Result<Gradient, BuildError>
        ensures { IsBuilt result (dir, profile scale first further.items)
            (31 < length further.items)
            (IsTooLong 21 gradient_element (dir, profile scale first further.items)) }
    {
        Packet::build(dir, scale, first, further)
    }
}

/// An element of packet 21: how steep the track is from its place onwards. 24 bits (SUBSET-026,
/// 7.4.2).
#[derive(Clone, Copy, Debug, PartialEq, Eq)]
pub struct GradientElement {
    /// D_GRADIENT, 15 bits: the distance from the element before, in the packet's scale.
    pub distance: Distance,
    /// Q_GDIR, 1 bit: whether the track rises.
    pub uphill: bool,
    /// G_A, 8 bits: metres of height per 1,000 metres. 255 is the end mark: the profile carries no
    /// information from that place.
    pub gradient: Plain<8>,
}

impl GradientElement {
    ghost use Rattle.etcs_bits.specs.layout.Reading.{read_rows};
    ghost use Rattle.etcs_bits.specs.layout.Results.{Gives, IfMemory};
    ghost use Rattle.etcs_profile.specs.Track.{gradient_element};

    // Reads the fields one by one, wherever the bits end. It stands apart so that the way of those far
    // from the end saves fewer registers.
    #[inline(never)]
    fn scan_fields(alloc: Global, cur: &mut Cursor<'_>) -> Result<Self, DecodeError>
        ensures gives { Gives gradient_element.rows result (read_rows gradient_element.fields cur.old) cur.new }
        ensures memory { IfMemory result ⊥ }
    {
        scan_each!(GradientElement, alloc, cur; distance, uphill, gradient)
    }
}

impl Layout for GradientElement {
    ghost use Rattle.etcs_profile.specs.Track.{gradient_element};

    ghost format = { gradient_element };

    #[tactic(auto, using(etcs_bits::proofs::PutLemmas::allowed_both))]
    fn is_allowed(&self) -> bool {
        each_allowed!(self; distance, uphill, gradient)
    }

    #[tactic(auto, using(etcs_bits::proofs::WidthLemmas::width_both), unfolding(etcs_bits::specs::layout::Rows::alone))]
    fn width(&self) -> u64 {
        24
    }

    #[tactic(auto, using(etcs_bits::proofs::PutLemmas::puts_then, etcs_bits::proofs::PutLemmas::keeps_front, etcs_bits::proofs::PutLemmas::allowed_both))]
    fn put(&self, out: &mut Bits) -> Result<(), Memory> {
        put_each!(self, out; distance, uphill, gradient)
    }

    #[inline(always)]
    fn scan(alloc: Global, cur: &mut Cursor<'_>) -> Result<Self, DecodeError> {
        // Far from the end all fields are there.
        if let Some(numbers) = cur.take_three(15, 1, 8) {
            return Ok(GradientElement {
                distance: Plain::of_field(numbers.0),
                uphill: numbers.1 == 1,
                gradient: Plain::of_field(numbers.2),
            });
        }
        GradientElement::scan_fields(alloc, cur)
    }
}

impl Same for GradientElement {
    fn same(&self, other: &Self) -> bool {
        each_same!(self, other; distance, uphill, gradient)
    }
}

impl Element for GradientElement {
    ghost distance_of = { λ e. e.distance };

    ghost marked = { λ e. e.gradient == 255 };

    #[inline]
    fn distance(&self) -> u32 {
        self.distance.number()
    }

    #[inline]
    fn is_end(&self) -> bool {
        self.gradient.number() == 255
    }
}
