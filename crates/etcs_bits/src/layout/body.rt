//! `Body`: a packet's content after L_PACKET, its length.

use crate::bits::Bits;
use crate::bits::cursor::Cursor;
use crate::bits::memory::Memory;
use crate::layout::Layout;
use crate::layout::fault::{DecodeError, Fault, FaultKind};
use crate::layout::same::Same;
use std::alloc::Global;
use std::marker::Model;

/// L_PACKET, 13 bits, and the record after it. L_PACKET counts all bits of the packet: the `BEFORE`
/// bits before it, its own and the record's. Any other number is a Length fault at L_PACKET,
/// answered after the record's last field (SUBSET-026, 7.4 and 7.5.1). Each body is allowed: no
/// packet has more than 8,191 bits, because L_PACKET cannot count more. Contracts see the record.
#[derive(Debug, Drop)]
pub struct Body<const BEFORE: u32, T: Layout> {
    content: T,
}

impl<const BEFORE: u32, T: Layout> Model for Body<BEFORE, T> {
    ghost use Rattle.etcs_bits.specs.layout.Rows.{AreAllowed};
    ghost use Rattle.etcs_bits.specs.layout.Combined.{body_rows};

    ghost Value = { T };

    ghost view = { λ b. b.content };

    ghost invariant = { λ b. AreAllowed (body_rows BEFORE T.format.rows b.content) };
}

impl<const BEFORE: u32, T: Layout> Body<BEFORE, T> {
    ghost use Rattle.std.specs.Prelude.{◌≡◌, ◌↔◌, ◌≤◌, ◌+◌, IsSome, IfSome};
    ghost use Rattle.etcs_bits.specs.layout.Rows.{width};

    /// The body with this record. None if the record is not allowed or the packet has more than
    /// 8,191 bits; the record is then lost.
    #[tactic(auto, unfolding(crate::specs::layout::Rows::alone))]
    pub fn new(content: T) -> Option<Self>
        ensures some { IfSome result (λ b. b ≡ content) }
        ensures fit { IsSome result ↔ (T.fit content × (BEFORE + (13 + width (T.format.rows content)) ≤ 8191)) }
    {
        let length = content
            .width()
            .saturating_add(13)
            .saturating_add(u64::from(BEFORE));
        if 8191 < length || !content.is_allowed() {
            return None;
        }
        Some(Body { content })
    }

    /// The record after L_PACKET.
    #[inline]
    pub fn content(&self) -> &T
        ensures { result.now ≡ self.now }
    {
        &self.content
    }
}

#[tactic(auto, using(crate::proofs::PutLemmas::puts_bits, crate::proofs::GrowthLemmas::body_grows), unfolding(crate::specs::layout::Rows::alone))]
impl<const BEFORE: u32, T: Layout> Layout for Body<BEFORE, T> {
    ghost use Rattle.etcs_bits.specs.layout.Format.{behind_length};
    ghost use Rattle.etcs_bits.specs.layout.Growth.{GrowsBehindLength};

    ghost format = { behind_length BEFORE T.format };

    ghost grows = { GrowsBehindLength T.grows };

    fn is_allowed(&self) -> bool {
        // For the proof alone: the type keeps its record allowed and short enough.
        let _content = &self.content;
        true
    }

    fn width(&self) -> u64 {
        self.content.width().saturating_add(13)
    }

    fn put(&self, out: &mut Bits) -> Result<(), Memory> {
        out.push_num(13, self.width() + u64::from(BEFORE))?;
        self.content.put(out)
    }

    fn scan(alloc: Global, cur: &mut Cursor<'_>) -> Result<Self, DecodeError> {
        let at = cur.at();
        let length = cur.take(13)?;
        let content = T::scan(alloc, cur)?;
        let end = cur.at();
        let before = u64::from(BEFORE);
        if length < before || length - before != (end - at) as u64 {
            return Err(DecodeError::Fault(Fault {
                at,
                end,
                why: FaultKind::Length,
            }));
        }
        Ok(Body { content })
    }
}

impl<const BEFORE: u32, T: Layout + Same> Same for Body<BEFORE, T> {
    fn same(&self, other: &Self) -> bool {
        self.content.same(&other.content)
    }
}
