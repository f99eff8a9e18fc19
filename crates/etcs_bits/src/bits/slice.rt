//! `BitSlice`: a borrowed part of a list of bits.

ghost use Rattle.std.specs.Prelude.{◌≡◌, ◌↔◌, ◌+◌, ◌-◌, ◌*◌, ◌<◌, ◌≤◌, ◌^◌, length, take, drop, slice_get, Some, IfOk, OnErr, IsTrue};
ghost use Rattle.etcs_bits.specs.bits.Number.{num_of_bits, bits_of_bytes};

use crate::bits::memory::Memory;
use crate::bits::{Bits, bytes};
use std::alloc::Global;
use std::marker::Model;

/// A part of borrowed bytes, such as the user bits in the bytes of a telegram or the body of a
/// packet. It may begin and end within a byte.
///
/// Contracts see it as a list of truth values. None of its calls but `to_bits` takes memory.
#[derive(Debug, Drop)]
pub struct BitSlice<'a> {
    bytes: &'a [u8],
    from: usize,
    to: usize,
}

impl<'a> Model for BitSlice<'a> {
    ghost use Rattle.std.specs.Prelude.{Bool, List, length, take, drop, ◌≤◌, ◌*◌, ◌-◌};
    ghost use Rattle.etcs_bits.specs.bits.Number.{bits_of_bytes};

    ghost Value = { List Bool };

    ghost view = { λ s. take (s.to - s.from) (drop s.from (bits_of_bytes s.bytes.now)) };

    ghost invariant = { λ s. (s.from ≤ s.to) × (s.to ≤ 8 * length s.bytes.now) };
}

impl<'a> BitSlice<'a> {
    /// The first `len` bits of the bytes. Each byte has eight bits, most significant first. The
    /// bytes must have at least `len` bits.
    #[inline]
    pub fn of_bytes(bytes: &'a [u8], len: usize) -> BitSlice<'a>
        requires { len ≤ 8 * length bytes.now }
        ensures bits { result ≡ take len (bits_of_bytes bytes.now) }
        ensures len { length result ≡ len }
    {
        BitSlice {
            bytes,
            from: 0,
            to: len,
        }
    }

    /// The number of bits.
    #[inline]
    pub fn len(&self) -> usize
        ensures { result ≡ length self.now }
    {
        // The bits before `from` are not part of it.
        self.to - self.from
    }

    /// The bit at place `i`, counted from 0: 1 is true. `i` is below the length.
    #[inline]
    pub fn bit(&self, i: usize) -> bool
        requires { i < length self.now }
        ensures { slice_get self.now i ≡ Some result }
    {
        bytes::bit_at(self.bytes, self.from + i)
    }

    /// The number that the `width` bits from place `from` spell, most significant first
    /// (SUBSET-026, 7.5). `width` is 1 to 32, and `width` bits or more follow that place.
    #[inline(always)]
    pub fn num(&self, from: usize, width: u32) -> u64
        requires low { 1 ≤ width }
        requires high { width ≤ 32 }
        requires inside { from + width ≤ length self.now }
        ensures value { result ≡ num_of_bits (take width (drop from self.now)) }
        ensures small { result < 2 ^ width }
    {
        bytes::num_at(self.bytes, self.from + from, width)
    }

    // That number, where 64 bits or more follow the place.
    #[inline(always)]
    pub(crate) fn num_far(&self, from: usize, width: u32) -> u64
        requires low { 1 ≤ width }
        requires high { width ≤ 32 }
        requires inside { from + 64 ≤ length self.now }
        ensures value { result ≡ num_of_bits (take width (drop from self.now)) }
        ensures small { result < 2 ^ width }
    {
        bytes::num_far(self.bytes, self.from + from, width)
    }

    /// The bits from place `from` up to place `to`, without the bit at `to`. The places are in
    /// order, and `to` is at most the length.
    #[inline]
    pub fn part(&self, from: usize, to: usize) -> BitSlice<'a>
        requires order { from ≤ to }
        requires inside { to ≤ length self.now }
        ensures bits { result ≡ take (to - from) (drop from self.now) }
        ensures len { from + length result ≡ to }
    {
        BitSlice {
            bytes: self.bytes,
            from: self.from + from,
            to: self.from + to,
        }
    }

    /// Whether the two have the same bits, wherever each begins in its bytes.
    pub fn same(&self, other: BitSlice<'_>) -> bool
        ensures { IsTrue result ↔ (self.now ≡ other.entry) }
    {
        let len = self.len();
        if other.len() != len {
            return false;
        }
        let mut at = 0;
        while len - at >= 32 {
            if self.num(at, 32) != other.num(at, 32) {
                return false;
            }
            at += 32;
        }
        let left = (len - at) as u32;
        left == 0 || self.num(at, left) == other.num(at, left)
    }

    /// A copy of the bits, as a list of its own. The only error is that memory runs out; then nothing
    /// is returned.
    pub fn to_bits(&self, alloc: Global) -> Result<Bits, Memory>
        ensures bits { IfOk result (λ b. b ≡ self.now) }
        ensures len { IfOk result (λ b. length b ≡ length self.now) }

        // No bits take no memory.
        ensures memory { OnErr result (0 < length self.now) }
    {
        let mut copy = Bits::with_room(alloc, self.len())?;
        copy.push_slice(self.part(0, self.len()))?;
        Ok(copy)
    }
}
