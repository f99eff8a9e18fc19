//! `Header`: the header of a telegram, from Q_UPDOWN to Q_LINK.

ghost use Rattle.std.specs.Prelude.{◌≡◌, Ok, IfSome};
ghost use Rattle.etcs_bits.specs.layout.Reading.{read_rows};
ghost use Rattle.etcs_telegram.specs.Header.{header};

use etcs_bits::{
    Bits, Counter, Cursor, DecodeError, Dup, Identity, Layout, Medium, Memory, Plain, Position,
    Total, Transmission, Version,
};
use std::alloc::Global;

/// The header of a telegram, its first 50 bits (SUBSET-026, 8.4.2). Q_UPDOWN (1, track to train)
/// and Q_MEDIA (0, a balise) are part of it too. Each has only one number, so they are not kept.
#[derive(Clone, Copy, Debug, PartialEq, Eq)]
pub struct Header {
    /// M_VERSION, 7 bits at place 1: the system version.
    pub version: Version,
    /// N_PIG, 3 bits at place 9: the position of the balise in its group, counted from 0.
    pub position: Position,
    /// N_TOTAL, 3 bits at place 12: the number of balises in the group, less one.
    pub total: Total,
    /// M_DUP, 2 bits at place 15: whether the balise is a duplicate of a neighbour.
    pub dup: Dup,
    /// M_MCOUNT, 8 bits at place 17: the message counter.
    pub counter: Counter,
    /// NID_C, 10 bits at place 25, and NID_BG, 14 bits at place 35: the identity of the balise
    /// group.
    pub identity: Identity,
    /// Q_LINK, 1 bit at place 49: whether the group is linked.
    pub linked: bool,
}

// The header at the cursor, if it has no fault and all its fields are far from the end. `None` is
// inconclusive, and leaves the cursor at an unspecified position.
#[inline(always)]
fn scan_far(cur: &mut Cursor<'_>) -> Option<Header>
    ensures { IfSome result (λ h. read_rows header.fields cur.old ≡ Ok (header.rows h, cur.new)) }
{
    let sender = cur.take_three(1, 7, 1)?;
    if sender.0 != 1 || sender.2 != 0 {
        return None;
    }
    let version = Version::new(sender.1 as u32)?;
    let balise = cur.take_three(3, 3, 2)?;
    let dup = Dup::new(balise.2 as u32)?;
    let group = cur.take_three(8, 10, 14)?;
    let Ok(linked) = cur.take(1) else {
        return None;
    };
    Some(Header {
        version,
        position: Plain::of_field(balise.0),
        total: Plain::of_field(balise.1),
        dup,
        counter: Plain::of_field(group.0),
        identity: Identity {
            country: Plain::of_field(group.1),
            group: Plain::of_field(group.2),
        },
        linked: linked == 1,
    })
}

impl Layout for Header {
    ghost use Rattle.etcs_telegram.specs.Header.{header};

    ghost format = { header };

    #[tactic(auto, using(etcs_bits::proofs::PutLemmas::allowed_both))]
    fn is_allowed(&self) -> bool {
        self.version.is_allowed()
            & self.position.is_allowed()
            & self.total.is_allowed()
            & self.dup.is_allowed()
            & self.counter.is_allowed()
            & self.identity.is_allowed()
            & self.linked.is_allowed()
    }

    #[tactic(auto, unfolding(etcs_bits::specs::layout::Rows::alone))]
    fn width(&self) -> u64 {
        50
    }

    #[tactic(auto, using(etcs_bits::proofs::PutLemmas::puts_then, etcs_bits::proofs::PutLemmas::keeps_front, etcs_bits::proofs::PutLemmas::allowed_both))]
    fn put(&self, out: &mut Bits) -> Result<(), Memory> {
        Transmission::TrackToTrain.put(out)?;
        self.version.put(out)?;
        Medium::Balise.put(out)?;
        self.position.put(out)?;
        self.total.put(out)?;
        self.dup.put(out)?;
        self.counter.put(out)?;
        self.identity.put(out)?;
        self.linked.put(out)
    }

    fn scan(alloc: Global, cur: &mut Cursor<'_>) -> Result<Self, DecodeError> {
        let mut ahead = cur.fork();
        if let Some(header) = scan_far(&mut ahead) {
            *cur = ahead;
            return Ok(header);
        }
        let Transmission::TrackToTrain = Transmission::scan(alloc, cur)?;
        let version = Version::scan(alloc, cur)?;
        let Medium::Balise = Medium::scan(alloc, cur)?;
        Ok(Header {
            version,
            position: Layout::scan(alloc, cur)?,
            total: Layout::scan(alloc, cur)?,
            dup: Layout::scan(alloc, cur)?,
            counter: Layout::scan(alloc, cur)?,
            identity: Layout::scan(alloc, cur)?,
            linked: Layout::scan(alloc, cur)?,
        })
    }
}
