//! `Bits`: an owned list of bits, kept in bytes. Bits are appended, read one by one, and copied from and to bytes.

pub(crate) mod bytes;
pub(crate) mod cursor;
pub(crate) mod memory;
pub(crate) mod slice;

ghost use Rattle.std.specs.Prelude.{◌≡◌, ◌+◌, ◌-◌, ◌*◌, ◌%◌, ◌<◌, ◌≤◌, ◌^◌, ◌++◌, false, List, Bool, [], length, take, replicate, slice_get, Some, IsOk, IfOk, OnOk, OnErr};
ghost use Rattle.etcs_bits.specs.bits.Number.{num, bits_of_bytes};
ghost use Rattle.etcs_bits.specs.layout.Results.{Puts};

use crate::bits::memory::Memory;
use crate::bits::slice::BitSlice;
use crate::layout::same::Same;
use std::alloc::Global;
use std::marker::Model;

/// A list of bits, such as the user bits of a telegram (SUBSET-036, 4.3). Eight bits are kept in
/// each byte.
///
/// Contracts see it as a list of truth values. It grows in the allocator that it was made with.
#[derive(Debug, Drop)]
pub struct Bits {
    bytes: Vec<u8>,
    len: usize,
}

impl Model for Bits {
    ghost use Rattle.std.specs.Prelude.{Bool, List, take};
    ghost use Rattle.etcs_bits.specs.bits.Number.{bits_of_bytes};
    ghost use Rattle.etcs_bits.specs.bits.Packed.{IsPacked};

    ghost Value = { List Bool };

    ghost view = { λ b. take b.len (bits_of_bytes b.bytes.items) };

    ghost invariant = { λ b. IsPacked b.bytes.items b.len };
}

impl Bits {
    /// An empty list. Takes no memory.
    pub fn new(alloc: Global) -> Bits
        ensures { result ≡ [] }
    {
        Bits {
            bytes: Vec::new(alloc),
            len: 0,
        }
    }

    // An empty list with room for `len` bits. Fails only if memory runs out. Room for none takes no
    // memory.
    pub(crate) fn with_room(alloc: Global, len: usize) -> Result<Bits, Memory>
        ensures empty { IfOk result (λ b. b ≡ []) }
        ensures memory { OnErr result (0 < len) }
    {
        let bytes = Vec::with_capacity(alloc, len.div_ceil(8))?;
        Ok(Bits { bytes, len: 0 })
    }

    /// The number of bits.
    #[inline]
    pub fn len(&self) -> usize
        ensures { result ≡ length self.now }
    {
        // Bits, not bytes.
        self.len
    }

    /// All its bits, borrowed.
    #[inline]
    pub fn slice(&self) -> BitSlice<'_>
        ensures { result ≡ self.now }
    {
        BitSlice::of_bytes(self.bytes.as_slice(), self.len)
    }

    /// The bit at place `i`, counted from 0: 1 is true. `i` is below the length.
    #[inline]
    pub fn bit(&self, i: usize) -> bool
        requires { i < length self.now }
        ensures { slice_get self.now i ≡ Some result }
    {
        bytes::bit_at(self.bytes.as_slice(), i)
    }

    /// Appends the `width` bits of `n`, most significant first. `width` is 1 to 32, and `n` fits in
    /// that many bits (SUBSET-026, 7.5). If memory runs out, nothing is appended.
    pub fn push_num(&mut self, width: u32, n: u64) -> Result<(), Memory>
        requires low { 1 ≤ width }
        requires high { width ≤ 32 }
        requires fits { n < 2 ^ width }
        ensures ok { OnOk result (self.new ≡ self.old ++ num width n) }
        ensures err { OnErr result (self.new ≡ self.old) }

        // Where the last byte has room for the bits, no memory is asked for.
        ensures room { (0 < length self.old % 8) × (length self.old % 8 + width ≤ 8)
            × (length self.old + width < 2 ^ 64) → IsOk result }
    {
        let Some(len) = self.len.checked_add(width as usize) else {
            return Err(Memory);
        };
        bytes::append(&mut self.bytes, self.len, width, n)?;
        self.len = len;
        Ok(())
    }

    /// Appends bits as they are, such as the body of a packet that is not looked into. If memory
    /// runs out, nothing is appended.
    pub fn push_bits(&mut self, bits: &Bits) -> Result<(), Memory>
        ensures ok { OnOk result (self.new ≡ self.old ++ bits.now) }
        ensures err { OnErr result (self.new ≡ self.old) }

        // To append no bits takes no memory.
        ensures memory { OnErr result (0 < length bits.now) }
    {
        let len = self.len();
        let done = self.push_slice(bits.slice());
        if done.is_err() {
            self.truncate(len);
        }
        done
    }

    // Appends borrowed bits, 32 at a time. If memory runs out, a part of them may be appended.
    pub(crate) fn push_slice(&mut self, bits: BitSlice<'_>) -> Result<(), Memory>
        ensures puts { Puts bits.entry result self.old self.new }
        ensures memory { OnErr result (0 < length bits.entry) }
    {
        let len = bits.len();
        let mut at = 0;
        while len - at >= 32 {
            self.push_num(32, bits.num(at, 32))?;
            at += 32;
        }
        let left = (len - at) as u32;
        if left > 0 {
            self.push_num(left, bits.num(at, left))?;
        }
        Ok(())
    }

    /// The first `len` bits of the bytes. Each byte has eight bits, most significant first. The
    /// bytes must have at least `len` bits. The only error is that memory runs out; then nothing is
    /// returned.
    pub fn from_bytes(alloc: Global, bytes: &[u8], len: usize) -> Result<Bits, Memory>
        requires { len ≤ 8 * length bytes.now }
        ensures bits { IfOk result (λ b. b ≡ take len (bits_of_bytes bytes.now)) }
        ensures len { IfOk result (λ b. length b ≡ len) }

        // No bits take no memory.
        ensures memory { OnErr result (0 < len) }
    {
        let mut kept = bytes::copy_of(alloc, &bytes[..len.div_ceil(8)])?;
        bytes::cut(&mut kept, len);
        Ok(Bits { bytes: kept, len })
    }

    /// The bits as bytes, eight in each, most significant first. Zeros fill the last byte. The only
    /// error is that memory runs out; then nothing is returned.
    pub fn to_bytes(&self, alloc: Global) -> Result<Vec<u8>, Memory>
        ensures bits { IfOk result (λ v. bits_of_bytes v.items
            ≡ self.now ++ replicate (8 * length v.items - length self.now) false) }
        ensures few { IfOk result (λ v. 8 * length v.items < length self.now + 8) }

        // No bits take no memory.
        ensures memory { OnErr result (0 < length self.now) }
    {
        let copy = bytes::copy_of(alloc, self.bytes.as_slice())?;
        Ok(copy)
    }

    /// Keeps the first `len` bits, or all if there are fewer.
    pub fn truncate(&mut self, len: usize)
        ensures { self.new ≡ take len self.old }
    {
        if len < self.len {
            bytes::cut(&mut self.bytes, len);
            self.len = len;
        }
    }
}

impl Same for Bits {
    fn same(&self, other: &Bits) -> bool {
        self.slice().same(other.slice())
    }
}
