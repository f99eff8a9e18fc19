//! Calls on documents and forms whose requests for memory are refused. `tests/test_memory.py` runs these tests
//! with each request refused in turn, by itself and with all later ones. Each call then gives its usual result,
//! or reports that memory ran out. If no request is refused, `ample_memory` requires every result. Calls of
//! the crates below are in `trials_groups`.

pub mod documents;

use etcs_form::LineError;
use std::process::Abort;

/// The result of calls: whether each gave its usual result, or why not.
pub type Answer = Result<bool, LineError>;

/// Each of the answers is yes, or memory ran out.
pub fn expect_answers(rt: &impl Abort, answers: &[Answer]) {
    for (place, answer) in answers.iter().enumerate() {
        let is_fine = matches!(answer, Ok(true) | Err(LineError::Memory));
        assert!(rt; is_fine, "{place}: {answer:?}");
    }
}
