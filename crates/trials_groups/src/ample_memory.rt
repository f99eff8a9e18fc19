//! The library calls of `refused_memory` with enough memory: each must give its usual result.

use crate::refused_memory::{Answer, lines, records};
use std::process::Abort;

// Requires that each of the answers is yes.
fn expect_yes(rt: &impl Abort, answers: &[Answer]) {
    for (place, answer) in answers.iter().enumerate() {
        assert_eq!(rt; *answer, Ok(true), "{place}");
    }
}

#[test]
fn every_call_answers_while_there_is_memory(rt: HostRuntime) {
    expect_yes(&rt, &records::answers(rt.alloc()));
    expect_yes(&rt, &lines::answers(rt.alloc()));
}
