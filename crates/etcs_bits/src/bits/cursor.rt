//! `Cursor`: a position among bits, from which fields are read one after the other.

ghost use Rattle.std.specs.Prelude.{◌≡◌, ◌↔◌, ◌+◌, ◌/◌, ◌%◌, ◌<◌, ◌≤◌, ◌^◌, length, take, drop, Ok, Err, Some, None, IfSome, IsSome, IsOk, IfOk, IfErr, MatchResult, OnOk, OnErr};
ghost use Rattle.etcs_bits.specs.layout.Fault.{short};
ghost use Rattle.etcs_bits.specs.layout.Reading.{forward, taken};

use crate::bits::Bits;
use crate::bits::slice::BitSlice;
use crate::layout::fault::{Fault, FaultKind};
use std::marker::Model;

/// The place where a reader stands: borrowed bits, and the place of the next bit. Contracts see it
/// as such a place. None of its calls takes memory.
#[derive(Drop)]
pub struct Cursor<'a> {
    bits: BitSlice<'a>,
    at: usize,
}

impl<'a> Model for Cursor<'a> {
    ghost use Rattle.std.specs.Prelude.{length, ◌≤◌};
    ghost use Rattle.etcs_bits.specs.layout.Rows.{Place};

    ghost Value = { Place };

    ghost view = { λ c. record { bits = c.bits; at = c.at } };

    ghost invariant = { λ c. c.at ≤ length c.bits };
}

// The fault of a field that does not fit.
#[cold]
fn no_room(at: usize, end: usize) -> Fault
    ensures { result ≡ record { at = at; end = end; why = FaultKind.Short } }
{
    Fault {
        at,
        end,
        why: FaultKind::Short,
    }
}

// The number of `width` bits of a number's that stand before its last `after`.
#[inline(always)]
fn field_in(n: u64, after: u32, width: u32) -> u64
    requires after { after ≤ 32 }
    requires width { width ≤ 32 }
    ensures { result ≡ n / 2 ^ after % 2 ^ width }
{
    (n >> after) & ((1 << width) - 1)
}

impl<'a> Cursor<'a> {
    /// The beginning of the bits.
    #[inline]
    pub fn new(bits: &'a Bits) -> Cursor<'a>
        ensures { result ≡ record { bits = bits.now; at = 0 } }
    {
        Cursor::over(bits.slice())
    }

    /// The beginning of borrowed bits.
    #[inline]
    pub fn over(bits: BitSlice<'a>) -> Cursor<'a>
        ensures { result ≡ record { bits = bits.entry; at = 0 } }
    {
        Cursor { bits, at: 0 }
    }

    /// The place of the next bit, counted from 0 at the start of the bits.
    #[inline]
    pub fn at(&self) -> usize
        ensures place { result ≡ self.now.at }
        ensures inside { result ≤ length self.now.bits }
    {
        // The type keeps it inside.
        self.at
    }

    /// The number of bits that are left.
    #[inline]
    pub fn left(&self) -> usize
        ensures { self.now.at + result ≡ length self.now.bits }
    {
        self.bits.len() - self.at
    }

    /// The number that the next `width` bits spell, most significant first (SUBSET-026, 7.5).
    /// `width` is 1 to 32. The cursor then stands after them.
    ///
    /// If fewer bits are left, the error is a Short fault at the cursor, whose `end` is the length
    /// of the bits. The cursor then does not move.
    #[inline(always)]
    pub fn take(&mut self, width: u32) -> Result<u64, Fault>
        requires low { 1 ≤ width }
        requires high { width ≤ 32 }
        ensures exact { MatchResult result (λ n. taken width self.old ≡ Ok (n, self.new))
            (λ f. taken width self.old ≡ Err f) }
        ensures small { IfOk result (λ n. n < 2 ^ width) }
        ensures err { OnErr result (self.new ≡ self.old) }
    {
        if self.bits.len() - self.at < 64 {
            return self.take_near_end(width);
        }
        let n = self.bits.num_far(self.at, width);
        self.at += width as usize;
        Ok(n)
    }

    /// The numbers of the next three fields of these widths, 1 to 32 bits each. The cursor then
    /// stands after them.
    ///
    /// None where the three have more than 32 bits, or fewer than 64 bits are left. The cursor then has
    /// not moved.
    #[inline(always)]
    pub fn take_three(&mut self, first: u32, second: u32, third: u32) -> Option<(u64, u64, u64)>
        requires first { (1 ≤ first) × (first ≤ 32) }
        requires second { (1 ≤ second) × (second ≤ 32) }
        requires third { (1 ≤ third) × (third ≤ 32) }
        ensures first { IfSome result (λ n. taken first self.old ≡ Ok (n.0, forward self.old first)) }
        ensures second { IfSome result (λ n. taken second (forward self.old first)
            ≡ Ok (n.1, forward (forward self.old first) second)) }
        ensures third { IfSome result (λ n. taken third (forward (forward self.old first) second) ≡ Ok (n.2, self.new)) }
        ensures small { IfSome result (λ n. (n.0 < 2 ^ first) × (n.1 < 2 ^ second) × (n.2 < 2 ^ third)) }
        ensures far { IsSome result
            ↔ (first + second + third ≤ 32) × (self.old.at + 64 ≤ length self.old.bits) }
        ensures none { result ≡ None → self.new ≡ self.old }
    {
        let whole = first + second + third;
        if 32 < whole || self.bits.len() - self.at < 64 {
            return None;
        }
        let n = self.bits.num_far(self.at, whole);
        self.at += whole as usize;
        Some((
            field_in(n, second + third, first),
            field_in(n, third, second),
            field_in(n, 0, third),
        ))
    }

    /// The numbers of the next two fields of these widths, 1 to 32 bits each. The cursor then stands
    /// after them.
    ///
    /// None where the two have more than 32 bits, or fewer than 64 bits are left. The cursor then has not
    /// moved.
    #[inline(always)]
    pub fn take_two(&mut self, first: u32, second: u32) -> Option<(u64, u64)>
        requires first { (1 ≤ first) × (first ≤ 32) }
        requires second { (1 ≤ second) × (second ≤ 32) }
        ensures first { IfSome result (λ n. taken first self.old ≡ Ok (n.0, forward self.old first)) }
        ensures second { IfSome result (λ n. taken second (forward self.old first) ≡ Ok (n.1, self.new)) }
        ensures small { IfSome result (λ n. (n.0 < 2 ^ first) × (n.1 < 2 ^ second)) }
        ensures far { IsSome result ↔ (first + second ≤ 32) × (self.old.at + 64 ≤ length self.old.bits) }
        ensures none { result ≡ None → self.new ≡ self.old }
    {
        let both = first + second;
        if 32 < both || self.bits.len() - self.at < 64 {
            return None;
        }
        let n = self.bits.num_far(self.at, both);
        self.at += both as usize;
        Some((field_in(n, second, first), field_in(n, 0, second)))
    }

    // What `take` promises, wherever the bits end.
    #[inline(never)]
    fn take_near_end(&mut self, width: u32) -> Result<u64, Fault>
        requires low { 1 ≤ width }
        requires high { width ≤ 32 }
        ensures exact { MatchResult result (λ n. taken width self.old ≡ Ok (n, self.new))
            (λ f. taken width self.old ≡ Err f) }
        ensures small { IfOk result (λ n. n < 2 ^ width) }
        ensures err { OnErr result (self.new ≡ self.old) }
    {
        let len = self.bits.len();
        if len - self.at < width as usize {
            return Err(no_room(self.at, len));
        }
        let n = self.bits.num(self.at, width);
        self.at += width as usize;
        Ok(n)
    }

    /// The next `n` bits, borrowed. The cursor then stands after them.
    ///
    /// If fewer bits are left, the error is a Short fault at the cursor, whose `end` is the length
    /// of the bits. The cursor then does not move.
    #[inline]
    pub fn take_slice(&mut self, n: usize) -> Result<BitSlice<'a>, Fault>
        ensures enough { IsOk result ↔ (self.old.at + n ≤ length self.old.bits) }
        ensures bits { IfOk result (λ s. s ≡ take n (drop self.old.at self.old.bits)) }
        ensures len { IfOk result (λ s. length s ≡ n) }
        ensures moved { OnOk result (self.new ≡ forward self.old n) }
        ensures short { IfErr result (λ f. f ≡ short self.old) }
        ensures err { OnErr result (self.new ≡ self.old) }
    {
        let end = self.bits.len();
        if end - self.at < n {
            return Err(no_room(self.at, end));
        }
        let part = self.bits.part(self.at, self.at + n);
        self.at += n;
        Ok(part)
    }

    // The fault of a field of `width` bits that allows no number.
    #[cold]
    pub(crate) fn refusal(&self, width: u32) -> Fault
        ensures short { length self.now.bits < self.now.at + width → result ≡ short self.now }
        ensures spare { self.now.at + width ≤ length self.now.bits
            → result ≡ record {
              at = self.now.at;
              end = self.now.at + width;
              why = FaultKind.Spare;
            } }
    {
        let len = self.bits.len();
        if len - self.at < width as usize {
            return no_room(self.at, len);
        }
        Fault {
            at: self.at,
            end: self.at + width as usize,
            why: FaultKind::Spare,
        }
    }

    /// A second cursor at the same place, to look ahead with.
    #[inline]
    pub fn fork(&self) -> Cursor<'a>
        ensures same { result ≡ self.now }
        ensures inside { result.at ≤ length result.bits }
    {
        Cursor {
            bits: self.bits.part(0, self.bits.len()),
            at: self.at,
        }
    }
}
