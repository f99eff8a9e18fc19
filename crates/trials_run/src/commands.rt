//! Each command: its answer, flushed once, and a device that fails or is interrupted at each call in turn.
//! A caller may repeat an interrupted call. A `Counted` reader or writer counts it as failed.

use crate::devices::{Device, Outcome, Wrong, run_between};
use etcs_run::{RunError, Status};
use std::alloc::Global;
use std::process::Abort;

/// How many bytes a call of a slow reader gives, and of a slow writer takes.
const GIVEN: usize = 20;

const TAKEN: usize = 9;

/// A header, the end mark and fill: a lone linked balise of country 1.
pub const TELEGRAM: &str = "a1007f802000ffffffffffffffffffffffffffffffffffffffffc0";

/// Its form.
pub const JSON: &str = "{\"m_dup\":0,\"m_mcount\":255,\"m_version\":33,\"n_pig\":0,\"n_total\":0,\
\"nid_bg\":1,\"nid_c\":1,\"packets\":[],\"q_link\":1,\"user_bits\":210}\n";

/// The form of a movement authority of 1,000 m for one train, at 500 ms.
pub const MESSAGE_JSON: &str = "{\"m_ack\":0,\"nid_bg\":1,\"nid_c\":1,\"nid_message\":3,\
\"packets\":[{\"end_speed\":0,\"end_timeout\":1023,\"l_endsection\":1000,\"nid_packet\":15,\
\"q_dir\":1,\"q_scale\":1,\"sections\":[]}],\"t_train\":100}\n";

pub const CHECK: &[&str] = &["balisecheck", "check"];

pub const DECODE: &[&str] = &["balisecheck", "decode"];

pub const DECODE_RADIO: &[&str] = &["balisecheck", "decode", "--radio"];

/// A command with an input, what is written for it, and the status.
#[derive(Clone, Copy)]
struct Case {
    words: &'static [&'static str],
    input: &'static str,
    text: &'static str,
    status: Status,
}

const CASES: [Case; 9] = [
    Case {
        words: CHECK,
        input: "{\"groups\":[],\"messages\":[]}",
        text: "yes: groups 0, messages 0\n",
        status: Status::Done,
    },
    // A single balise, whose duplicate flag names a next one.
    Case {
        words: CHECK,
        input: "{\"groups\":[{\"balises\":\
[\"a100ff802000ffffffffffffffffffffffffffffffffffffffffc0\"]}],\"messages\":[]}",
        text: "no: findings 1\nF4 group 0 balise 0: mark points outside\n",
        status: Status::Findings,
    },
    // The last line has no end.
    Case {
        words: DECODE,
        input: TELEGRAM,
        text: JSON,
        status: Status::Done,
    },
    // The telegram, an empty line, and the telegram with a pad bit set.
    Case {
        words: DECODE,
        input: "a1007f802000ffffffffffffffffffffffffffffffffffffffffc0\n\n\
a1007f802000ffffffffffffffffffffffffffffffffffffffffc1\n",
        text: "{\"m_dup\":0,\"m_mcount\":255,\"m_version\":33,\"n_pig\":0,\"n_total\":0,\
\"nid_bg\":1,\"nid_c\":1,\"packets\":[],\"q_link\":1,\"user_bits\":210}\n\
refused: line 3: pad bits set\n",
        status: Status::Refused,
    },
    Case {
        words: DECODE_RADIO,
        input: "03048000001900080021e810901ff801\nf400\n",
        text: MESSAGE_JSON,
        status: Status::Done,
    },
    Case {
        words: DECODE_RADIO,
        input: "03048000001900080021e810901ff801\nf400030080",
        text: "{\"m_ack\":0,\"nid_bg\":1,\"nid_c\":1,\"nid_message\":3,\
\"packets\":[{\"end_speed\":0,\"end_timeout\":1023,\"l_endsection\":1000,\"nid_packet\":15,\
\"q_dir\":1,\"q_scale\":1,\"sections\":[]}],\"t_train\":100}\n\
refused: message 1: length below 3\n",
        status: Status::Refused,
    },
    Case {
        words: &["balisecheck", "encode"],
        input: "{\"m_dup\":0,\"m_mcount\":255,\"m_version\":33,\"n_pig\":0,\"n_total\":0,\
\"nid_bg\":1,\"nid_c\":1,\"packets\":[],\"q_link\":1,\"user_bits\":210}\n[]\n",
        text: "a1007f802000ffffffffffffffffffffffffffffffffffffffffc0\n\
refused: line 2: form kind at /\n",
        status: Status::Refused,
    },
    Case {
        words: &["balisecheck", "encode"],
        input: JSON,
        text: "a1007f802000ffffffffffffffffffffffffffffffffffffffffc0\n",
        status: Status::Done,
    },
    Case {
        words: &["balisecheck", "encode", "--radio"],
        input: MESSAGE_JSON,
        text: "03048000001900080021e810901ff801f400\n",
        status: Status::Done,
    },
];

fn run_case(alloc: Global, case: &Case, from: Device, to: Device) -> Outcome {
    run_between(alloc, case.words, case.input.as_bytes(), from, to)
}

/// Requires this status and text, no failed call, and one flush, at the end.
pub fn expect(rt: &impl Abort, outcome: &Outcome, status: Status, text: &str) {
    assert_eq!(rt; outcome.answer, Ok(status), "{text}");
    assert!(rt; outcome.text.as_slice() == text.as_bytes(), "{text}");
    assert_eq!(rt; (outcome.failed_reads, outcome.failed_writes), (0, 0));
    assert_eq!(rt; outcome.flushes, 1);
    assert!(rt; outcome.ends_flushed);
}

/// Requires these counts of failed reads and writes, and a beginning of `text`.
pub fn expect_device(rt: &impl Abort, outcome: &Outcome, text: &str, failed: (u64, u64)) {
    assert_eq!(rt; outcome.answer, Err(RunError::Device));
    assert!(rt; text.as_bytes().starts_with(outcome.text.as_slice()));
    assert_eq!(rt; (outcome.failed_reads, outcome.failed_writes), failed);
}

// The reader fails like this at this call, which is then its last one, and nothing is flushed.
fn expect_failed_read(alloc: Global, rt: &impl Abort, case: &Case, wrong: Wrong, call: u64) {
    let from = Device::failing(GIVEN, wrong, call);
    let outcome = run_case(alloc, case, from, Device::sound());
    expect_device(rt, &outcome, case.text, (1, 0));
    assert_eq!(rt; outcome.reads, call.saturating_add(1));
    assert_eq!(rt; outcome.flushes, 0);
}

// The writer fails like this at this call, which is then its last one.
fn expect_failed_write(alloc: Global, rt: &impl Abort, case: &Case, wrong: Wrong, call: u64) {
    let to = Device::failing(TAKEN, wrong, call);
    let outcome = run_case(alloc, case, Device::sound(), to);
    expect_device(rt, &outcome, case.text, (0, 1));
    assert_eq!(rt; outcome.writes, call.saturating_add(1));
}

#[test]
fn each_command_answers_in_pieces(rt: HostRuntime) {
    for case in &CASES {
        for piece in [1, 2, 7, usize::MAX] {
            let outcome = run_case(rt.alloc(), case, Device::new(piece), Device::new(piece));
            expect(&rt, &outcome, case.status, case.text);
        }
    }
}

#[test]
fn each_call_that_fails_ends_the_run(rt: HostRuntime) {
    for case in &CASES {
        let slow = run_case(rt.alloc(), case, Device::new(GIVEN), Device::new(TAKEN));
        assert!(rt; 1 < slow.reads && 1 < slow.writes);
        for wrong in [Wrong::Error, Wrong::Interrupted] {
            for call in 0..slow.reads {
                expect_failed_read(rt.alloc(), &rt, case, wrong, call);
            }
            for call in 0..slow.writes {
                expect_failed_write(rt.alloc(), &rt, case, wrong, call);
            }
        }
    }
}
