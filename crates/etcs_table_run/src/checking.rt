//! `check_input`: from a reader of a table to the report on it. `answer_table`: from the table's bytes.

ghost use Rattle.std.specs.Prelude.{◌≡◌, string_bytes, IfOk, OnErr, OnOk};
ghost use Rattle.std.specs.Io.KnownBytes.{IsAtEnd};
ghost use Rattle.etcs_run.specs.Counted.{CanCount, CountsNone, CountsOne, wrapped};
ghost use Rattle.etcs_run.specs.Ran.{CountsOneDevice, EndsFlushed, Runs};
ghost use Rattle.etcs_table_run.specs.TableOutput.{table_output, table_status};

use etcs_bits::Memory;
use etcs_run::{Counted, RunError, Status, read_whole, write_out};
use etcs_table::Headings;
use etcs_table_check::{CheckTableError, RowFinding, check_table, refusal_text, report};
use std::alloc::Global;
use std::io::{Read, Write};

// The status of a check.
fn status_of(findings: &[RowFinding]) -> Status
    ensures { result ≡ table_status findings.now }
{
    if findings.is_empty() {
        Status::Done
    } else {
        Status::Findings
    }
}

/// What is written for the bytes of a table, and the status. Fails only if memory runs out; then nothing is returned.
pub fn answer_table(
    alloc: Global,
    headings: &Headings<'_>,
    table: &[u8],
) -> Result<(String, Status), Memory>
    ensures { IfOk result (λ a. (string_bytes a.0, a.1) ≡ table_output headings.now table.now) }
{
    match check_table(alloc, headings, table) {
        Ok(verdict) => {
            let text = report(alloc, &verdict)?;
            Ok((text, status_of(verdict.findings())))
        }
        Err(CheckTableError::Memory) => Err(Memory),
        Err(CheckTableError::Refused(why)) => {
            let text = refusal_text(alloc, &why)?;
            Ok((text, Status::Refused))
        }
    }
}

/// Reads a table to the end of the input, and writes the report on it, or why it is refused. Then it flushes the writer.
/// Nothing is written before the end of the input was reached.
///
/// `Memory`: an allocation failed, and no count has risen. `Device`: a read, a write or a flush failed; the count of that
/// reader or writer has risen by 1, and the other has not. In both cases what was read is gone from the reader. If the
/// writer has failed, the text written is a beginning of the report or of the refusal, perhaps not flushed. Otherwise the
/// writer is unchanged.
pub fn check_input<R: Read, W: Write>(
    alloc: Global,
    headings: &Headings<'_>,
    reader: &mut Counted<R>,
    writer: &mut Counted<W>,
) -> Result<Status, RunError>
    requires reads { CanCount reader.old }
    requires writes { CanCount writer.old }
    ensures ran { Runs R.remaining W.contents reader.old reader.new writer.old writer.new
        (table_output headings.now) result }
    ensures flushed { EndsFlushed result writer.old writer.new }
    ensures counts { CountsOneDevice result reader.old reader.new writer.old writer.new }

    // The writer is called only after the end of the input was reached.
    ensures to_end { OnOk result (IsAtEnd (R.remaining (wrapped reader.new))) }
    ensures cut_off { CountsOne writer.old writer.new → IsAtEnd (R.remaining (wrapped reader.new)) }
    ensures unwritten { OnErr result (CountsNone writer.old writer.new → writer.new ≡ writer.old) }
{
    let table = read_whole(alloc, reader)?;
    let (text, status) = answer_table(alloc, headings, table.as_slice())?;
    write_out(writer, text.as_bytes(), status)
}
