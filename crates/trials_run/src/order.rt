//! What is read before what is written, and what is not read any more. And `Counted` itself.

use crate::commands::{
    CHECK, DECODE, DECODE_RADIO, JSON, MESSAGE_JSON, TELEGRAM, expect, expect_device,
};
use crate::devices::{Device, Sink, Source, Wrong, run_between};
use etcs_run::{Counted, RunError, Status};
use std::io::{Read, Write};
use std::test::Fail;

const USAGE: &str = "refused: usage is balisecheck check, decode [--radio] or encode [--radio]\n";

#[test]
fn words_that_are_no_command_read_nothing(rt: HostRuntime) {
    let input = TELEGRAM.as_bytes();
    let words: [&[&str]; 2] = [&[], &["balisecheck", "decode", "more"]];
    for words in words {
        let outcome = run_between(rt.alloc(), words, input, Device::sound(), Device::sound());
        expect(&rt, &outcome, Status::Refused, USAGE);
        assert_eq!(rt; (outcome.reads, outcome.writes), (0, 2));
    }
}

#[test]
fn nothing_is_read_after_a_refusal(rt: HostRuntime) {
    let from = Device::new(3);
    let outcome = run_between(rt.alloc(), DECODE, b"zz\n00\n", from, Device::sound());
    let refusal = "refused: line 1: not hexadecimal\n";
    expect(&rt, &outcome, Status::Refused, refusal);
    assert_eq!(rt; outcome.reads, 1);
}

#[test]
fn nothing_is_read_after_the_end(rt: HostRuntime) -> Result<(), Fail> {
    let lines = format!(in rt.alloc(); "{TELEGRAM}\nzz\n")?;
    // The third read gives nothing, though a fourth would give more.
    let from = Device::failing(27, Wrong::MovesNothing, 2);
    let outcome = run_between(rt.alloc(), DECODE, lines.as_bytes(), from, Device::sound());
    expect(&rt, &outcome, Status::Done, JSON);
    assert_eq!(rt; (outcome.reads, outcome.writes), (3, 2));
    Ok(())
}

#[test]
fn a_message_is_written_before_more_is_read(rt: HostRuntime) {
    let message = b"03048000001900080021e810901ff801f400\n";
    let from = Device::failing(message.len(), Wrong::Error, 1);
    let outcome = run_between(rt.alloc(), DECODE_RADIO, message, from, Device::sound());
    expect_device(&rt, &outcome, MESSAGE_JSON, (1, 0));
    assert!(rt; outcome.text.as_slice() == MESSAGE_JSON.as_bytes());
}

#[test]
fn a_document_is_read_to_its_end_before_it_is_answered(rt: HostRuntime) {
    let from = Device::new(1);
    let outcome = run_between(rt.alloc(), CHECK, b"]]", from, Device::sound());
    expect(&rt, &outcome, Status::Refused, "refused: not JSON\n");
    assert_eq!(rt; outcome.reads, 3);
    // The two bytes are not JSON, whatever follows them. The third read fails.
    let from = Device::failing(1, Wrong::Error, 2);
    let outcome = run_between(rt.alloc(), CHECK, b"]]", from, Device::sound());
    expect_device(&rt, &outcome, "", (1, 0));
    assert_eq!(rt; outcome.writes, 0);
}

#[test]
fn a_counted_device_is_asked(rt: HostRuntime) {
    let mut source = Source::new(b"abc", Device::sound());
    let mut reader = Counted::new(&mut source);
    let mut block = [0u8; 2];
    assert_eq!(rt; reader.read(&mut block).ok(), Some(2));
    assert!(rt; block == *b"ab");
    assert_eq!(rt; reader.failures(), 0);
    let mut sink = Sink::new(rt.alloc(), Device::failing(usize::MAX, Wrong::Error, 1));
    let mut writer = Counted::new(&mut sink);
    assert_eq!(rt; writer.write(b"abc").ok(), Some(3));
    assert!(rt; writer.flush().is_err());
    assert_eq!(rt; writer.failures(), 1);
    assert!(rt; sink.taken() == b"abc".as_slice());
}

#[test]
fn errors_say_what_is_wrong(rt: HostRuntime) -> Result<(), Fail> {
    assert_eq!(rt; RunError::Memory.to_string(rt.alloc())?.as_str(), "memory");
    assert_eq!(rt; RunError::Device.to_string(rt.alloc())?.as_str(), "device");
    Ok(())
}
