//! Views of packets in borrowed bytes.

use etcs_bits::{BitSlice, Cursor, DecodeError, Dir};
use etcs_packet::{PacketView, Stop, next_view};
use std::alloc::Global;
use std::test::Fail;

// A header of 50 bits, packet 44 with a body of 129 bits, and the end mark.
const RAW: [u8; 27] = [
    0xa1, 0x00, 0x7f, 0x80, 0x20, 0x00, 0xcb, 0x20, 0x4c, 0, 0, 0, 0, 0, 0, 0, 0, 0, 0, 0, 0, 0, 0,
    0, 0, 0x3f, 0xc0,
];

// Number, direction and length of the body, of a raw view.
fn raw_parts(view: &PacketView<'_>) -> Option<(u8, Dir, usize)> {
    match view {
        PacketView::Raw { number, dir, body } => Some((*number, *dir, body.len())),
        PacketView::Known(_) => None,
    }
}

// Number, direction and length of the body, of the raw packet that is next.
fn next_raw(alloc: Global, cur: &mut Cursor<'_>) -> Result<Option<(u8, Dir, usize)>, DecodeError> {
    match next_view(alloc, cur, Stop::Telegram)? {
        Some(view) => Ok(raw_parts(&view)),
        None => Ok(None),
    }
}

// Asks for no memory, so it passes too where every request for memory is refused.
#[test]
fn a_raw_body_is_borrowed(rt: HostRuntime) -> Result<(), Fail> {
    let mut cur = Cursor::over(BitSlice::of_bytes(&RAW, 210));
    let _header = cur.take_slice(50)?;
    assert!(rt; next_raw(rt.alloc(), &mut cur) == Ok(Some((44, Dir::Both, 129))));
    assert!(rt; cur.at() == 202);
    let end = next_view(rt.alloc(), &mut cur, Stop::Telegram)?;
    assert!(rt; end.is_none() && cur.at() == 202);
    Ok(())
}
