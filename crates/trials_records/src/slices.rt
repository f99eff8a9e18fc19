//! Borrowed bits, at any place of their bytes.

ghost use Rattle.std.specs.Prelude.{◌≤◌};

use etcs_bits::{BitSlice, Bits, Memory, Same};
use std::alloc::Global;
use std::test::Fail;

// Bytes without a pattern of eight bits.
const BYTES: [u8; 13] = [
    0x9e, 0x37, 0x79, 0xb9, 0x7f, 0x4a, 0x7c, 0x15, 0xf3, 0x9c, 0xc0, 0x60, 0x5c,
];

// The number that the bits spell, bit by bit.
fn number_of(bits: &BitSlice<'_>) -> u64 {
    let mut number = 0u64;
    for place in 0..bits.len() {
        number = number << 1 | bits.bit(place) as u64;
    }
    number
}

#[test]
fn every_width_is_read_at_every_place(rt: HostRuntime) {
    let bits = BitSlice::of_bytes(&BYTES, 104);
    for width in 1..33u32 {
        for from in 0..105 - width as usize {
            let number = number_of(&bits.part(from, from + width as usize));
            assert_eq!(rt; bits.num(from, width), number, "{width} bits at {from}");
        }
    }
}

// The bits, after the first ones of a byte.
fn shifted(alloc: Global, bits: &Bits, shift: usize) -> Result<Bits, Memory>
    requires { shift ≤ 8 }
{
    let mut all = Bits::from_bytes(alloc, &[0x5a], shift)?;
    all.push_bits(bits)?;
    Ok(all)
}

#[test]
fn bits_are_compared_wherever_they_begin(rt: HostRuntime) -> Result<(), Fail> {
    for shift in 0..9 {
        let whole = Bits::from_bytes(rt.alloc(), &BYTES, 99)?;
        let all = shifted(rt.alloc(), &whole, shift)?;
        assert_eq!(rt; all.len(), shift + 99);
        let shorter = all.slice().part(shift, shift + 98);
        assert!(rt; !shorter.same(whole.slice()), "{shift}");
        let part = all.slice().part(shift, shift + 99);
        assert!(rt; part.same(whole.slice()), "{shift}");
    }
    Ok(())
}
