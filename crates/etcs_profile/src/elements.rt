//! `Elements`: the body of a packet that describes the track, its scale and its elements.

ghost use Rattle.std.specs.Prelude.{◌≡◌, ◌<◌, ◌≤◌, ◌*◌, length, IfSome};
ghost use Rattle.etcs_profile.specs.Reach.{way_to_mark};

use crate::each::{each_allowed, each_same, put_each, scan_each};
use crate::element::Element;
use crate::error::BuildError;
use crate::factor::factor;
use crate::reach::Reach;
use etcs_bits::{Bits, Cursor, DecodeError, Items, Layout, Memory, Same, Scale};
use std::alloc::Global;
use std::marker::Model;

/// The body of a packet that describes the track: a scale, a first element and further elements
/// (SUBSET-026, 7.4.2). The first element's distance starts at the balise group that sends the
/// packet. Each further element's distance starts at the element before it.
#[derive(Debug, Drop)]
pub struct Elements<T> {
    scale: Scale,
    first: T,
    further: Items<T>,
}

impl<T> Model for Elements<T> {
    ghost use Rattle.std.specs.Prelude.{◌<◌, length};
    ghost use Rattle.etcs_profile.specs.Profile.{Profile};

    ghost Value = { Profile T };

    ghost view = { λ e. record { scale = e.scale; first = e.first; further = e.further } };

    ghost invariant = { λ e. length e.further < 32 };
}

impl<T: Drop> Elements<T> {
    ghost use Rattle.std.specs.Prelude.{IfOk, IfErr, IsErr, ◌↔◌, ◌≤◌};
    ghost use Rattle.etcs_profile.specs.Elements.{profile};

    /// Makes the body of these elements. The call takes no memory.
    ///
    /// `TooMany`: there are more than 31 after the first. The elements are lost then.
    pub fn new(scale: Scale, first: T, further: Vec<T>) -> Result<Elements<T>, BuildError>
        ensures ok { IfOk result (λ e. e ≡ profile scale first further.items) }
        ensures many { IsErr result ↔ (32 ≤ length further.items) }
        ensures err { IfErr result (λ e. e ≡ BuildError.TooMany) }
    {
        if 32 <= further.len() {
            return Err(BuildError::TooMany);
        }
        Ok(Elements {
            scale,
            first,
            further: Items::new(further),
        })
    }

    /// Q_SCALE: the unit of all distances.
    pub fn scale(&self) -> Scale
        ensures { result ≡ self.now.scale }
    {
        self.scale
    }

    /// The first element.
    pub fn first(&self) -> &T
        ensures { result.now ≡ self.now.first }
    {
        &self.first
    }

    /// The elements after the first, in order.
    pub fn further(&self) -> &[T]
        ensures elements { result.now ≡ self.now.further }
        ensures few { length result.now < 32 }
    {
        self.further.as_slice()
    }
}

// The sum of the distances up to and including the first element that is marked as the end.
fn way_to_end<T: Element>(elements: &[T]) -> Option<u64>
    requires { length elements.now < 32 }
    ensures way { result ≡ way_to_mark T.distance_of T.marked elements.now }
    ensures small { IfSome result (λ n. n ≤ 32 * 32767) }
{
    let mut sum = 0;
    'elements: for element in elements {
        sum += u64::from(element.distance());
        if element.is_end() {
            return Some(sum);
        }
    }
    None
}

impl<T: Element> Elements<T> {
    ghost use Rattle.etcs_profile.specs.Elements.{elements_reach};

    /// How far along the track the profile reaches, in decimetres: the sum of the distances up to
    /// and including the first element that is marked as the end. The reach is open if none is
    /// marked.
    pub fn reach(&self) -> Reach
        ensures { result ≡ elements_reach T.distance_of T.marked self.now }
    {
        let first = u64::from(self.first.distance());
        let factor = factor(self.scale);
        if self.first.is_end() {
            return Reach::Ends(factor * first);
        }
        match way_to_end(self.further()) {
            Some(way) => Reach::Ends(factor * (first + way)),
            None => Reach::Open,
        }
    }
}

#[tactic(auto, using(etcs_bits::proofs::PutLemmas::puts_then, etcs_bits::proofs::PutLemmas::keeps_front, etcs_bits::proofs::PutLemmas::allowed_both))]
impl<T: Layout> Layout for Elements<T> {
    ghost use Rattle.std.specs.List.{AllByRecursion};
    ghost use Rattle.etcs_profile.specs.Elements.{elements};
    ghost use Rattle.etcs_profile.specs.Growth.{elements_grow};

    ghost format = { elements T.format };

    ghost fit = { λ e. T.fit e.first × AllByRecursion T.fit e.further };

    ghost grows = { elements_grow T.grows T.format };

    fn is_allowed(&self) -> bool {
        each_allowed!(self; scale, first, further)
    }

    #[tactic(auto, using(etcs_bits::proofs::WidthLemmas::width_both), unfolding(etcs_bits::specs::layout::Rows::alone))]
    fn width(&self) -> u64 {
        self.first
            .width()
            .saturating_add(self.further.width())
            .saturating_add(2)
    }

    fn put(&self, out: &mut Bits) -> Result<(), Memory> {
        put_each!(self, out; scale, first, further)
    }

    #[tactic(auto, using(etcs_bits::proofs::GrowthLemmas::never_grows, etcs_bits::proofs::GrowthLemmas::after_grows, etcs_bits::proofs::GrowthLemmas::first_grows, etcs_bits::proofs::GrowthLemmas::second_grows))]
    fn scan(alloc: Global, cur: &mut Cursor<'_>) -> Result<Self, DecodeError> {
        scan_each!(Elements, alloc, cur; scale, first, further)
    }
}

impl<T: Same> Same for Elements<T> {
    fn same(&self, other: &Self) -> bool {
        each_same!(self, other; scale, first, further)
    }
}
