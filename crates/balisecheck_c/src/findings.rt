//! What `check` finds, as a line of JSON, and its status.

ghost use Rattle.std.specs.Prelude.{◌≡◌, IfSome};
ghost use Rattle.balisecheck_c.specs.Answer.{IsAnswer, IsLength};
ghost use Rattle.balisecheck_c.specs.Findings.{findings_output, outcome_status};

use crate::commands::{answer, length_of};
use etcs_findings::{Outcome, findings_json};
use etcs_run::Status;
use std::alloc::Global;

// The status of `check` for an outcome.
fn status_of(outcome: Outcome) -> Status
    ensures { result ≡ outcome_status outcome }
{
    match outcome {
        Outcome::Yes => Status::Done,
        Outcome::No => Status::Findings,
        Outcome::Refused => Status::Refused,
    }
}

// The line for a document and the status of `check` for it, unless memory runs out.
fn line_of(alloc: Global, input: &[u8]) -> Option<(Vec<u8>, Status)>
    ensures { IfSome result (λ o. findings_output input.now ≡ (o.0.items, o.1)) }
{
    match findings_json(alloc, input) {
        Ok(found) => Some((found.0, status_of(found.1))),
        Err(_) => None,
    }
}

/// The answer of `balisecheck check` to the document of a railway line, as a line of JSON, with the same status.
#[unsafe(no_mangle)]
pub extern "C" fn balisecheck_findings(
    alloc: Global,
    input: &[u8],
    buffer: &mut [u8],
    length: &mut usize,
) -> u32
    ensures { IsAnswer (findings_output input.now) buffer.old buffer.new length.new result }
{
    answer(line_of(alloc, input), buffer, length)
}

/// The length of the line that [`balisecheck_findings`] returns for this input, and its status.
#[unsafe(no_mangle)]
pub extern "C" fn balisecheck_findings_length(
    alloc: Global,
    input: &[u8],
    length: &mut usize,
) -> u32
    ensures { IsLength (findings_output input.now) length.new result }
{
    length_of(line_of(alloc, input), length)
}
