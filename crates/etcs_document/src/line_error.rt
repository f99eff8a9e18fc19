//! `LineError`: why bytes are not the document of a railway line.

ghost use Rattle.std.specs.Prelude.{◌≡◌, ◌++◌, IfSome, IsSomeAnd};
ghost use Rattle.etcs_document.specs.Document.{group_path};
ghost use Rattle.etcs_document.specs.DocumentFault.{IsOfForm};
ghost use Rattle.etcs_schema.specs.Fault.{fault, error_fault};
ghost use Rattle.etcs_document.specs.declared.line_error.LineError.TheVariants as errors;

use etcs_bits::Memory;
use etcs_radio::RadioTextError;
use etcs_schema::{FormError, Step};
use etcs_telegram::TextError;
use std::alloc::AllocFailed;
use thiserror::Error;

/// Why bytes are not the document of a railway line: their first fault, depth first. Groups,
/// aspects, balises and messages count from 0.
#[derive(Debug, Drop, Error)]
pub enum LineError {
    /// Memory ran out. A fault might then be unreported. No other error contains this one.
    #[error("out of memory")]
    Memory,
    /// The bytes are not UTF-8 or not JSON, have more than one value or a number out of range, or nest more than
    /// 127 levels.
    #[error("not JSON")]
    NotJson,
    /// The value does not have the form of a line.
    #[error("{0}")]
    Form(FormError),
    /// The group with this number has no balise, or more than eight (SUBSET-026, 3.4.1).
    #[error("group {0}: count")]
    Count(usize),
    /// In the group with the first number, the text of the balise with the second is not a telegram.
    #[error("group {0} balise {1}: {2}")]
    Telegram(usize, usize, TextError),
    /// The text of the message with this number is not a radio message.
    #[error("message {0}: {1}")]
    Message(usize, RadioTextError),
    /// The group with this number has an empty list of aspects, or an aspect whose number of balises
    /// differs from aspect 0.
    #[error("group {0}: aspects")]
    Aspects(usize),
    /// In the group with the first number, in the aspect with the second, the text of the balise with the
    /// third is not a telegram.
    #[error("group {0} aspect {1} balise {2}: {3}")]
    AspectTelegram(usize, usize, usize, TextError),
}

impl From<Memory> for LineError {
    ghost from_gives = { λ _ error. error ≡ errors.Memory };

    fn from(_memory: Memory) -> LineError {
        LineError::Memory
    }
}

impl<T: Drop> From<AllocFailed<T>> for LineError {
    ghost from_gives = { λ _ error. error ≡ errors.Memory };

    fn from(_failed: AllocFailed<T>) -> LineError {
        LineError::Memory
    }
}

impl From<FormError> for LineError {
    ghost from_gives = { λ form error. IsOfForm form error };

    fn from(error: FormError) -> LineError {
        match error {
            FormError::Memory => LineError::Memory,
            fault => LineError::Form(fault),
        }
    }
}

/// The same fault, with its path prefixed with the path of its group and aspect.
pub(crate) fn in_group(error: FormError, group: usize, aspect: Option<usize>) -> FormError
    ensures { IfSome (error_fault result) (λ f. IsSomeAnd (error_fault error)
        (λ inner. f ≡ fault inner.reason (group_path group aspect ++ inner.path))) }
{
    match aspect {
        None => error.under(Step::Place(group)).under(Step::Key("groups")),
        Some(aspect) => {
            let error = error.under(Step::Place(aspect)).under(Step::Key("aspects"));
            error.under(Step::Place(group)).under(Step::Key("groups"))
        }
    }
}
