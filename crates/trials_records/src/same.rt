//! Which packets are the same: only those of the same bits.

use crate::spelled::all_kinds;
use etcs_bits::{Bits, Cursor, DecodeError, Memory, are_same};
use etcs_packet::{Stop, TrackPacket, read_packets};
use std::alloc::Global;
use std::test::Fail;

// The packets at the beginning.
fn packets(alloc: Global, bits: &Bits) -> Result<Vec<TrackPacket>, DecodeError> {
    read_packets(alloc, &mut Cursor::new(bits), Stop::Telegram)
}

// The bits, the one at this place turned.
fn turned(alloc: Global, bits: &Bits, place: usize) -> Result<Bits, Memory> {
    let mut out = Bits::new(alloc);
    for at in 0..bits.len() {
        out.push_num(1, u64::from(bits.bit(at) != (at == place)))?;
    }
    Ok(out)
}

#[test]
fn packets_with_another_bit_are_others(rt: HostRuntime) -> Result<(), Fail> {
    let alloc = rt.alloc();
    let bits = all_kinds(alloc)?;
    let these = packets(alloc, &bits)?;
    assert!(rt; are_same(these.as_slice(), packets(alloc, &bits)?.as_slice()));
    let mut others = 0usize;
    for at in 0..592usize {
        if let Ok(those) = packets(alloc, &turned(alloc, &bits, at)?) {
            assert!(rt; !are_same(these.as_slice(), those.as_slice()), "{at}");
            others = others.saturating_add(1);
        }
    }
    // Most fields may have any number.
    assert!(rt; 300 < others);
    Ok(())
}
