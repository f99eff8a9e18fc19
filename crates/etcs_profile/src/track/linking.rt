//! `Linking` and `Link`: packet 5.

ghost use Rattle.std.specs.Prelude.{◌<◌, length};

use crate::each::{each_allowed, each_same, put_each, scan_each};
use crate::elements::Elements;
use crate::error::BuildError;
use crate::packet::Packet;
use etcs_bits::{
    Bits, Country, Cursor, DecodeError, Dir, Distance, GroupNumber, Layout, Memory, Plain, Ranged,
    Reaction, Same, Scale,
};
use std::alloc::Global;

/// Packet 5, linking: the balise groups that come next. It lets a train notice a group that it
/// misses. Contracts see the direction, and the scale with the links (SUBSET-026, 3.4.4 and 7.4.2).
pub type Linking = Packet<5, Elements<Link>>;

impl Packet<5, Elements<Link>> {
    ghost use Rattle.etcs_profile.specs.Elements.{profile};
    ghost use Rattle.etcs_profile.specs.Built.{IsBuilt};

    /// Makes the packet of these links. The distance of the first link counts from the group that
    /// sends the packet. The call takes no memory. After an error the links are lost.
    ///
    /// `TooMany`: there are more than 31 links after the first.
    pub fn new(
        dir: Dir,
        scale: Scale,
        first: Link,
        further: Vec<Link>,
    ) -> Result<Linking, BuildError>
        ensures { IsBuilt result (dir, profile scale first further.items) (31 < length further.items) ⊥ }
    {
        // A packet with 32 links has at most 1,598 bits, so it is never too long.
        Packet::build(dir, scale, first, further)
    }
}

/// A balise group that comes, and how far away it is. A link has 39 bits, and 10 more where it
/// names another country (SUBSET-026, 3.4.4 and 7.4.2).
#[derive(Clone, Copy, Debug, PartialEq, Eq)]
pub struct Link {
    /// The distance from the group before: D_LINK, 15 bits, in the packet's scale.
    pub distance: Distance,
    /// The country or region of the group, if it differs from that of the group before:
    /// Q_NEWCOUNTRY, 1 bit, and NID_C, 10 bits.
    pub country: Option<Country>,
    /// The number of the group in its country or region: NID_BG, 14 bits.
    pub group: GroupNumber,
    /// Whether the train passes the group in its nominal direction: Q_LINKORIENTATION, 1 bit.
    pub nominal: bool,
    /// What the train does where it misses the group: Q_LINKREACTION, 2 bits.
    pub reaction: Reaction,
    /// How exactly the group's place is known, in metres to either side: Q_LOCACC, 6 bits.
    pub accuracy: Plain<6>,
}

impl Link {
    ghost use Rattle.etcs_bits.specs.layout.Reading.{read_rows};
    ghost use Rattle.etcs_bits.specs.layout.Results.{Gives, IfMemory};
    ghost use Rattle.etcs_profile.specs.Track.{link};

    // Reads the fields one by one, wherever the bits end. It stands apart so that the way of those far
    // from the end saves fewer registers.
    #[inline(never)]
    fn scan_fields(alloc: Global, cur: &mut Cursor<'_>) -> Result<Self, DecodeError>
        ensures gives { Gives link.rows result (read_rows link.fields cur.old) cur.new }
        ensures memory { IfMemory result ⊥ }
    {
        scan_each!(Link, alloc, cur; distance, country, group, nominal, reaction, accuracy)
    }
}

impl Layout for Link {
    ghost use Rattle.etcs_profile.specs.Track.{link};

    ghost format = { link };

    #[tactic(auto, using(etcs_bits::proofs::PutLemmas::allowed_both, etcs_bits::proofs::FitLemmas::some_fit))]
    fn is_allowed(&self) -> bool {
        each_allowed!(self; distance, country, group, nominal, reaction, accuracy)
    }

    #[tactic(auto, using(etcs_bits::proofs::WidthLemmas::width_both), unfolding(etcs_bits::specs::layout::Rows::alone))]
    fn width(&self) -> u64 {
        self.country.width().saturating_add(38)
    }

    #[tactic(auto, using(etcs_bits::proofs::PutLemmas::puts_then, etcs_bits::proofs::PutLemmas::keeps_front, etcs_bits::proofs::PutLemmas::allowed_both))]
    fn put(&self, out: &mut Bits) -> Result<(), Memory> {
        put_each!(self, out; distance, country, group, nominal, reaction, accuracy)
    }

    #[inline(always)]
    fn scan(alloc: Global, cur: &mut Cursor<'_>) -> Result<Self, DecodeError> {
        // Far from the end all fields of a link within the country are there.
        let mut ahead = cur.fork();
        if let Some(head) = ahead.take_three(15, 1, 14) {
            if head.1 == 0 {
                if let Some(tail) = ahead.take_three(1, 2, 6) {
                    if let Some(reaction) = Ranged::new(tail.1 as u32) {
                        *cur = ahead;
                        return Ok(Link {
                            distance: Plain::of_field(head.0),
                            country: None,
                            group: Plain::of_field(head.2),
                            nominal: tail.0 == 1,
                            reaction,
                            accuracy: Plain::of_field(tail.2),
                        });
                    }
                }
            }
        }
        Link::scan_fields(alloc, cur)
    }
}

impl Same for Link {
    fn same(&self, other: &Self) -> bool {
        each_same!(self, other; distance, country, group, nominal, reaction, accuracy)
    }
}
