//! What a splitter answers to pieces of a stream.

use etcs_radio::{Splitter, State};

// A movement authority, message 3, of 18 bytes, and the first byte of the next message.
const STREAM: [u8; 19] = [
    0x03, 0x04, 0x80, 0x00, 0x00, 0x19, 0x00, 0x08, 0x00, 0x21, 0xe8, 0x10, 0x90, 0x1f, 0xf8, 0x01,
    0xf4, 0x00, 0x03,
];

#[test]
fn a_message_is_held_until_it_is_dropped(rt: HostRuntime) {
    let mut splitter = Splitter::new();
    let fed = splitter.feed(&STREAM[..2]);
    assert!(rt; fed.used == 2 && fed.state == State::More);
    splitter.clear();
    assert_eq!(rt; splitter.held(), 2);
    let fed = splitter.feed(&STREAM[2..]);
    assert!(rt; fed.used == 16 && fed.state == State::Ready && splitter.held() == 18);
    let fed = splitter.feed(&STREAM);
    assert!(rt; fed.used == 0 && fed.state == State::Ready);
    splitter.clear();
    assert_eq!(rt; splitter.held(), 0);
    let fed = splitter.feed(&[0x03, 0x00, 0x80, 0x00]);
    assert!(rt; fed.used == 3 && fed.state == State::Failed);
}
