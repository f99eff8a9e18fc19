//! `Plain` and its names, such as `Counter` and `Distance`: variables without a spare number.

ghost use Rattle.std.specs.Prelude.{◌≡◌, ◌↔◌, ◌<◌, ◌^◌, IsTrue, IsSome, IfSome};

use crate::bits::Bits;
use crate::bits::cursor::Cursor;
use crate::bits::memory::Memory;
use crate::layout::Layout;
use crate::layout::fault::DecodeError;
use crate::layout::same::Same;
use std::alloc::Global;
use std::marker::Model;

/// A variable of `W` bits, 1 to 32, without a spare number (SUBSET-026, 7.5.1). For any other `W`,
/// no number is allowed. Contracts see it as its number.
#[derive(Clone, Copy, Debug, PartialEq, Eq)]
pub struct Plain<const W: u32> {
    number: u32,
}

/// N_PIG, 3 bits: the position of a balise in its group, counted from 0.
pub type Position = Plain<3>;

/// N_TOTAL, 3 bits: the number of balises in a group, less one.
pub type Total = Plain<3>;

/// M_MCOUNT, 8 bits: the message counter. 254 fits no message of the group. 255 fits every one.
pub type Counter = Plain<8>;

/// NID_C, 10 bits: the country or region of a balise group.
pub type Country = Plain<10>;

/// NID_BG, 14 bits: the number of a balise group in its country or region.
pub type GroupNumber = Plain<14>;

/// Distances and lengths in packets, 15 bits: in the unit of the packet's scale, so up to 327,670
/// metres (SUBSET-026, 7.5.1).
pub type Distance = Plain<15>;

/// Times in packets 12 and 15, 10 bits: in seconds. 1023 means that there is no time-out
/// (SUBSET-026, 7.5.1).
pub type Time = Plain<10>;

impl<const W: u32> Model for Plain<W> {
    ghost use Rattle.std.specs.Prelude.{ℕ, ◌<◌, ◌^◌, IsTrue};
    ghost use Rattle.etcs_bits.specs.variables.Variables.{plain};

    ghost Value = { ℕ };

    ghost view = { λ p. p.number };

    ghost invariant = { λ p. (p.number < 2 ^ W) × IsTrue ((plain W).allows p.number) };

    ghost inverse = { λ n. record { number = n } };
}

impl<const W: u32> Plain<W> {
    ghost use Rattle.std.specs.Prelude.{◌≤◌};
    ghost use Rattle.etcs_bits.specs.variables.Variables.{plain};

    /// The variable with this number. None exactly if the number does not fit in `W` bits, and
    /// always for a `W` outside 1 to 32.
    #[inline(always)]
    pub fn new(n: u32) -> Option<Self>
        ensures some { IfSome result (λ p. p ≡ n) }
        ensures allowed { IsSome result ↔ ((n < 2 ^ W) × IsTrue ((plain W).allows n)) }
    {
        if W == 0 || 32 < W || (W < 32 && 1 << W <= n) {
            return None;
        }
        Some(Plain { number: n })
    }

    /// The variable with the number of a field, which fits in `W` bits.
    #[inline(always)]
    pub fn of_field(n: u64) -> Self
        requires low { 1 ≤ W }
        requires high { W ≤ 32 }
        requires fits { n < 2 ^ W }
        ensures { result ≡ n }
    {
        Plain { number: n as u32 }
    }

    /// The number.
    #[inline]
    pub fn number(self) -> u32
        ensures number { result ≡ self.entry }
        ensures small { result < 2 ^ W }
        ensures allowed { IsTrue ((plain W).allows result) }
    {
        // The type keeps it in range.
        self.number
    }
}

#[tactic(auto, unfolding(crate::specs::layout::Rows::alone))]
impl<const W: u32> Layout for Plain<W> {
    ghost use Rattle.etcs_bits.specs.variables.Variables.{plain};
    ghost use Rattle.etcs_bits.specs.layout.Format.{variable};

    ghost format = { variable (plain W) };

    fn is_allowed(&self) -> bool {
        // For the proof alone: the type keeps the number in range.
        let _number = self.number();
        true
    }

    fn width(&self) -> u64 {
        u64::from(W)
    }

    fn put(&self, out: &mut Bits) -> Result<(), Memory> {
        out.push_num(W, u64::from(self.number()))
    }

    #[inline(always)]
    fn scan(_alloc: Global, cur: &mut Cursor<'_>) -> Result<Self, DecodeError> {
        if W == 0 || 32 < W {
            return Err(DecodeError::Fault(cur.refusal(W)));
        }
        let n = cur.take(W)?;
        Ok(Plain { number: n as u32 })
    }
}

impl<const W: u32> Same for Plain<W> {
    fn same(&self, other: &Self) -> bool {
        self.number() == other.number()
    }
}
