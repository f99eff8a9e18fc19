//! `Packet`: its number, its direction and its body, which is any `Layout`.

ghost use Rattle.std.specs.Prelude.{◌≡◌};

use crate::number::Number;
use etcs_bits::{Bits, Body, Cursor, DecodeError, Dir, Layout, Memory, Same};
use std::alloc::Global;
use std::marker::Model;

/// Packet number `N`: NID_PACKET, 8 bits, Q_DIR, 2 bits, L_PACKET, 13 bits, and a record
/// (SUBSET-026, 7.4). Contracts see it as the direction and the record.
#[derive(Debug, Drop)]
pub struct Packet<const N: u32, T: Layout> {
    dir: Dir,
    body: Body<10, T>,
}

impl<const N: u32, T: Layout> Model for Packet<N, T> {
    ghost use Rattle.etcs_bits.specs.declared.variables.direction.Dir.{Dir};

    ghost Value = { Dir × T };

    ghost view = { λ p. (p.dir, p.body) };
}

impl<const N: u32, T: Layout> Packet<N, T> {
    ghost use Rattle.std.specs.Prelude.{◌↔◌, ◌≤◌, ◌+◌, IsSome, IfSome};
    ghost use Rattle.etcs_bits.specs.layout.Rows.{width};
    ghost use Rattle.etcs_bits.specs.layout.Reading.{read_rows};
    ghost use Rattle.etcs_bits.specs.layout.Results.{Gives, IfMemory};
    ghost use Rattle.etcs_profile.specs.Growth.{rest_grows};
    ghost use Rattle.etcs_profile.specs.Packet.{rest};

    /// Makes the packet with this record, for this direction. None if the record is not allowed or
    /// the packet has more than 8,191 bits. The record is lost then. The call takes no memory.
    #[inline]
    pub fn of(dir: Dir, body: T) -> Option<Self>
        ensures some { IfSome result (λ p. p ≡ (dir, body)) }
        ensures fit { IsSome result ↔ (T.fit body × (23 + width (T.format.rows body) ≤ 8191)) }
    {
        let body = Body::new(body)?;
        Some(Packet { dir, body })
    }

    /// Q_DIR: the running directions that the packet is for.
    #[inline]
    pub fn dir(&self) -> Dir
        ensures { result ≡ self.now.0 }
    {
        self.dir
    }

    /// The record after L_PACKET.
    #[inline]
    pub fn body(&self) -> &T
        ensures { result.now ≡ self.now.1 }
    {
        self.body.content()
    }

    /// Reads what follows NID_PACKET: Q_DIR, L_PACKET and the record. After an error the cursor may
    /// stand anywhere.
    pub fn scan_rest(alloc: Global, cur: &mut Cursor<'_>) -> Result<Self, DecodeError>
        ensures gives { Gives (rest T.format).rows result (read_rows (rest T.format).fields cur.old) cur.new }
        ensures memory { IfMemory result (rest_grows T.grows cur.old) }
    {
        let dir = Dir::scan(alloc, cur)?;
        let body = Layout::scan(alloc, cur)?;
        Ok(Packet { dir, body })
    }
}

#[tactic(auto, using(etcs_bits::proofs::PutLemmas::puts_then, etcs_bits::proofs::PutLemmas::keeps_front, etcs_bits::proofs::PutLemmas::allowed_both))]
impl<const N: u32, T: Layout> Layout for Packet<N, T> {
    ghost use Rattle.std.specs.Prelude.{◌<◌};
    ghost use Rattle.etcs_bits.specs.layout.Growth.{GrowsAfter};
    ghost use Rattle.etcs_profile.specs.Growth.{rest_grows};
    ghost use Rattle.etcs_profile.specs.Packet.{nid_packet, packet};

    ghost format = { packet N T.format };

    ghost fit = { λ _. N < 256 };

    ghost grows = { GrowsAfter (nid_packet N).fields (rest_grows T.grows) };

    fn is_allowed(&self) -> bool {
        let number = Number::<N>;
        number.is_allowed() && self.dir.is_allowed() && self.body.is_allowed()
    }

    #[tactic(auto, using(etcs_bits::proofs::WidthLemmas::width_both), unfolding(etcs_bits::specs::layout::Rows::alone))]
    fn width(&self) -> u64 {
        self.body.width().saturating_add(10)
    }

    fn put(&self, out: &mut Bits) -> Result<(), Memory> {
        let number = Number::<N>;
        number.put(out)?;
        self.dir.put(out)?;
        self.body.put(out)
    }

    #[tactic(auto, using(etcs_bits::proofs::GrowthLemmas::never_grows))]
    fn scan(alloc: Global, cur: &mut Cursor<'_>) -> Result<Self, DecodeError> {
        let _number = Number::<N>::scan(alloc, cur)?;
        Packet::scan_rest(alloc, cur)
    }
}

impl<const N: u32, T: Layout + Same> Same for Packet<N, T> {
    fn same(&self, other: &Self) -> bool {
        self.dir.same(&other.dir) && self.body.same(&other.body)
    }
}
