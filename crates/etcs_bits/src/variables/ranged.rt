//! `Ranged` and its names, such as `Speed` and `Reaction`: variables with spare numbers between two ranges.

ghost use Rattle.std.specs.Prelude.{◌≡◌, ◌↔◌, ◌<◌, ◌^◌, IsTrue, IsSome, IfSome};

use crate::bits::Bits;
use crate::bits::cursor::Cursor;
use crate::bits::memory::Memory;
use crate::layout::Layout;
use crate::layout::fault::{DecodeError, FaultKind, refused};
use crate::layout::same::Same;
use std::alloc::Global;
use std::marker::Model;

/// A variable of `W` bits, 1 to 32, whose numbers are 0 to `LAST`, and `FROM` and above. A number
/// between these ranges is spare: a Spare fault (SUBSET-026, 7.5.1). For any other `W`, no number
/// is allowed. Contracts see it as its number.
#[derive(Clone, Copy, Debug, PartialEq, Eq)]
pub struct Ranged<const W: u32, const LAST: u32, const FROM: u32> {
    number: u32,
}

/// V_MAIN, V_LOA and V_DIFF, 7 bits: a speed in steps of 5 km/h, 0 to 120 (600 km/h). 121 to 127
/// are spare: a Spare fault (SUBSET-026, 7.5.1).
pub type Speed = Ranged<7, 120, 128>;

/// V_STATIC, 7 bits: a speed in steps of 5 km/h, 0 to 120. 127 is the end mark: the profile reaches
/// no further. 121 to 126 are spare: a Spare fault (SUBSET-026, 7.5.1).
pub type StaticSpeed = Ranged<7, 120, 127>;

/// V_RELEASEDP and V_RELEASEOL, 7 bits: a release speed in steps of 5 km/h, 0 to 120. 126 means
/// that the speed is calculated on board. 127 means the national value. 121 to 125 are spare: a
/// Spare fault (SUBSET-026, 7.5.1).
pub type ReleaseSpeed = Ranged<7, 120, 126>;

/// Q_LINKREACTION, 2 bits: what the train does where it misses a linked group. 0 is train trip, 1
/// service brake, 2 nothing. 3 is spare: a Spare fault (SUBSET-026, 7.5.1).
pub type Reaction = Ranged<2, 2, 4>;

/// Q_DIFF, 2 bits: which trains a difference of speed is for. 0 is by cant deficiency, 1 and 2 are
/// another category of train. 3 is spare: a Spare fault (SUBSET-026, 7.5.1).
pub type DifferenceKind = Ranged<2, 2, 4>;

impl<const W: u32, const LAST: u32, const FROM: u32> Model for Ranged<W, LAST, FROM> {
    ghost use Rattle.std.specs.Prelude.{ℕ, ◌<◌, ◌^◌, IsTrue};
    ghost use Rattle.etcs_bits.specs.variables.Variables.{ranged};

    ghost Value = { ℕ };

    ghost view = { λ p. p.number };

    ghost invariant = { λ p. (p.number < 2 ^ W) × IsTrue ((ranged W LAST FROM).allows p.number) };

    ghost inverse = { λ n. record { number = n } };
}

impl<const W: u32, const LAST: u32, const FROM: u32> Ranged<W, LAST, FROM> {
    ghost use Rattle.etcs_bits.specs.variables.Variables.{ranged};

    /// The variable with this number. None exactly if the number does not fit in `W` bits or is
    /// spare, and always for a `W` outside 1 to 32.
    #[inline(always)]
    pub fn new(n: u32) -> Option<Self>
        ensures some { IfSome result (λ p. p ≡ n) }
        ensures allowed { IsSome result ↔ ((n < 2 ^ W) × IsTrue ((ranged W LAST FROM).allows n)) }
    {
        if W == 0 || 32 < W || (W < 32 && 1 << W <= n) {
            return None;
        }
        // The numbers between the two ranges are spare.
        if LAST < n && n < FROM {
            return None;
        }
        Some(Ranged { number: n })
    }

    /// The number, in the variable's own steps.
    #[inline]
    pub fn number(self) -> u32
        ensures number { result ≡ self.entry }
        ensures small { result < 2 ^ W }
        ensures allowed { IsTrue ((ranged W LAST FROM).allows result) }
    {
        // The type keeps it in range.
        self.number
    }
}

#[tactic(auto, unfolding(crate::specs::layout::Rows::alone))]
impl<const W: u32, const LAST: u32, const FROM: u32> Layout for Ranged<W, LAST, FROM> {
    ghost use Rattle.etcs_bits.specs.variables.Variables.{ranged};
    ghost use Rattle.etcs_bits.specs.layout.Format.{variable};

    ghost format = { variable (ranged W LAST FROM) };

    fn is_allowed(&self) -> bool {
        // For the proof alone: the type keeps the number in range.
        let _number = self.number();
        true
    }

    fn width(&self) -> u64 {
        u64::from(W)
    }

    fn put(&self, out: &mut Bits) -> Result<(), Memory> {
        out.push_num(W, u64::from(self.number()))
    }

    #[inline(always)]
    fn scan(_alloc: Global, cur: &mut Cursor<'_>) -> Result<Self, DecodeError> {
        if W == 0 || 32 < W {
            return Err(DecodeError::Fault(cur.refusal(W)));
        }
        let at = cur.at();
        let n = cur.take(W)? as u32;
        if LAST < n && n < FROM {
            return Err(refused(at, cur, FaultKind::Spare));
        }
        Ok(Ranged { number: n })
    }
}

impl<const W: u32, const LAST: u32, const FROM: u32> Same for Ranged<W, LAST, FROM> {
    fn same(&self, other: &Self) -> bool {
        self.number() == other.number()
    }
}
