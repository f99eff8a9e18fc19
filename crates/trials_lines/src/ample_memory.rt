//! The library calls of `refused_memory` with enough memory: each must give its usual result.

use crate::refused_memory::documents;
use std::process::Abort;

#[test]
fn every_call_answers_while_there_is_memory(rt: HostRuntime) {
    // Each of the answers is yes.
    for (place, answer) in documents::answers(rt.alloc()).iter().enumerate() {
        assert!(rt; matches!(answer, Ok(true)), "{place}: {answer:?}");
    }
}
