//! Methods of `Packet` for a body of `Elements`: a profile of the track, or linking. No types.

ghost use Rattle.std.specs.Prelude.{◌≡◌, ◌<◌, length};

use crate::element::Element;
use crate::elements::Elements;
use crate::error::BuildError;
use crate::packet::Packet;
use crate::reach::Reach;
use etcs_bits::{Dir, Layout, Scale};

impl<const N: u32, T: Layout> Packet<N, Elements<T>> {
    ghost use Rattle.etcs_profile.specs.Elements.{profile};
    ghost use Rattle.etcs_profile.specs.Built.{HasMany, IsBuilt, IsTooLong};

    // The packet of these elements.
    pub(crate) fn build(
        dir: Dir,
        scale: Scale,
        first: T,
        further: Vec<T>,
    ) -> Result<Self, BuildError>
        ensures { IsBuilt result (dir, profile scale first further.items)
            (HasMany T.fit first further.items)
            (IsTooLong N T.format (dir, profile scale first further.items)) }
    {
        let elements = Elements::new(scale, first, further)?;
        // An element's own list may be too long for its N_ITER.
        if !elements.is_allowed() {
            return Err(BuildError::TooMany);
        }
        Packet::of(dir, elements).ok_or(BuildError::TooLong)
    }

    /// Q_SCALE: the unit of all distances.
    pub fn scale(&self) -> Scale
        ensures { result ≡ self.now.1.scale }
    {
        self.body().scale()
    }

    /// The first element.
    pub fn first(&self) -> &T
        ensures { result.now ≡ self.now.1.first }
    {
        self.body().first()
    }

    /// The elements after the first, in order. There are at most 31.
    pub fn further(&self) -> &[T]
        ensures elements { result.now ≡ self.now.1.further }
        ensures few { length result.now < 32 }
    {
        self.body().further()
    }
}

impl<const N: u32, T: Element> Packet<N, Elements<T>> {
    ghost use Rattle.etcs_profile.specs.Elements.{elements_reach};

    /// How far along the track the profile reaches, in decimetres: the sum of the distances up to
    /// and including the first element that is marked as the end. The reach is open if none is
    /// marked.
    pub fn reach(&self) -> Reach
        ensures { result ≡ elements_reach T.distance_of T.marked self.now.1 }
    {
        self.body().reach()
    }
}
