//! Library calls whose requests for memory are refused. `tests/test_memory.py` runs these tests with each
//! request refused in turn, by itself and with all later ones. Each call then gives its usual result, or
//! reports that memory ran out, and its borrowed arguments are unchanged. If no request is refused,
//! `ample_memory` requires every result.

pub mod lines;
pub mod records;

use crate::halt::Halt;
use std::process::Abort;

/// The result of calls: whether each gave its usual result and left its arguments as required, or why not.
pub type Answer = Result<bool, Halt>;

/// Each of the answers is yes, or memory ran out.
pub fn expect_answers(rt: &impl Abort, answers: &[Answer]) {
    for (place, answer) in answers.iter().enumerate() {
        let is_fine = matches!(answer, Ok(true) | Err(Halt::Memory));
        assert!(rt; is_fine, "{place}: {answer:?}");
    }
}
