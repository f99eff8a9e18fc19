//! `check_input`, the command `check`: from the document of a railway line to the report on it.

ghost use Rattle.std.specs.Prelude.{◌≡◌, string_bytes, IfOk, OnErr, OnOk};
ghost use Rattle.std.specs.Io.KnownBytes.{IsAtEnd};
ghost use Rattle.etcs_run.specs.Checking.{check_output, check_status};
ghost use Rattle.etcs_run.specs.Counted.{CanCount, CountsNone, CountsOne, wrapped};
ghost use Rattle.etcs_run.specs.Ran.{CountsOneDevice, EndsFlushed, Runs};

use crate::counted::Counted;
use crate::error::RunError;
use crate::output::write_out;
use crate::status::Status;
use crate::whole_input::read_whole;
use etcs_bits::Memory;
use etcs_check::Finding;
use etcs_document::{LineError, Refusal, check_in_order, refusal_text, report_counts};
use std::alloc::Global;
use std::io::{Read, Write};

// The status of a check.
fn status_of(findings: &[Finding]) -> Status
    ensures { result ≡ check_status findings.now }
{
    if findings.is_empty() {
        Status::Done
    } else {
        Status::Findings
    }
}

// What is written for a document, and the status.
fn answer_document(alloc: Global, document: &[u8]) -> Result<(String, Status), Memory>
    ensures { IfOk result (λ a. (string_bytes a.0, a.1) ≡ check_output document.now) }
{
    match check_in_order(alloc, document) {
        Ok(checked) => {
            let findings = checked.findings.as_slice();
            let text = report_counts(alloc, checked.groups, checked.messages, findings)?;
            Ok((text, status_of(findings)))
        }
        Err(why) => match why {
            LineError::Memory => Err(Memory),
            _ => {
                let text = refusal_text(alloc, &Refusal::Document(why))?;
                Ok((text, Status::Refused))
            }
        },
    }
}

/// Reads the document of a line to the end of the input, and writes the report on the line, or why
/// the document is refused. Then it flushes the writer. Nothing is written before the end of the
/// input was reached.
///
/// `Memory`: an allocation failed, and no count has risen. `Device`: a read, a write or a flush failed; the
/// count of that reader or writer has risen by 1, and the other has not. In both cases what was read is gone
/// from the reader. If the writer has failed, the text written is a beginning of the report or of the
/// refusal, perhaps not flushed. Otherwise the writer is unchanged.
pub fn check_input<R: Read, W: Write>(
    alloc: Global,
    reader: &mut Counted<R>,
    writer: &mut Counted<W>,
) -> Result<Status, RunError>
    requires reads { CanCount reader.old }
    requires writes { CanCount writer.old }
    ensures ran { Runs R.remaining W.contents reader.old reader.new writer.old writer.new
        check_output result }
    ensures flushed { EndsFlushed result writer.old writer.new }
    ensures counts { CountsOneDevice result reader.old reader.new writer.old writer.new }

    // The writer is called only after the end of the input was reached.
    ensures to_end { OnOk result (IsAtEnd (R.remaining (wrapped reader.new))) }
    ensures cut_off { CountsOne writer.old writer.new → IsAtEnd (R.remaining (wrapped reader.new)) }
    ensures unwritten { OnErr result (CountsNone writer.old writer.new → writer.new ≡ writer.old) }
{
    let document = read_whole(alloc, reader)?;
    let (text, status) = answer_document(alloc, document.as_slice())?;
    write_out(writer, text.as_bytes(), status)
}
