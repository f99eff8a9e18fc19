//! `answer_input`: runs a command over a whole input.

ghost use Rattle.std.specs.Prelude.{◌≡◌, [], false};
ghost use Rattle.etcs_run.specs.Counted.{CanCount, FlushesNone};
ghost use Rattle.etcs_run.specs.LineReading.{has_ended, held_bytes};
ghost use Rattle.etcs_run.specs.Output.{line_by_line};
ghost use Rattle.etcs_run.specs.Ran.{CountsOneDevice, EndsFlushed, Runs};

use crate::control_flow::ControlFlow;
use crate::counted::Counted;
use crate::error::RunError;
use crate::output::finish;
use crate::status::Status;
use crate::text_line_command::TextLineCommand;
use crate::text_lines::TextLines;
use std::alloc::Global;
use std::io::{Read, Write};

// Writes the answer to each line, up to the line at which the run stops, and to the end of the input.
fn answer_lines<C: TextLineCommand, R: Read, W: Write>(
    alloc: Global,
    command: &mut C,
    lines: &mut TextLines,
    reader: &mut Counted<R>,
    writer: &mut Counted<W>,
) -> Result<Status, RunError>
    requires fresh { (held_bytes lines.old ≡ []) × (has_ended lines.old ≡ false) }
    requires uncounted { C.count_bound command.old ≡ 0 }
    requires reads { CanCount reader.old }
    requires writes { CanCount writer.old }
    ensures ran { Runs R.remaining W.contents reader.old reader.new writer.old writer.new
        (line_by_line (C.answers command.old)) result }
    ensures counts { CountsOneDevice result reader.old reader.new writer.old writer.new }
    ensures unflushed { FlushesNone writer.old writer.new }
{
    // Only for the proof: the budget has a range, which bounds the number of lines.
    let _ = reader.budget();
    let mut number = 0;
    'lines: while lines.next(reader)? {
        number += 1;
        if let ControlFlow::Stop(status) = command.answer(alloc, number, lines.line(), writer)? {
            return Ok(status);
        }
    }
    command.end(alloc, writer)
}

/// Writes the command's answer to each line of the input, and to its end. Then it flushes the
/// writer.
///
/// `Memory`: an allocation failed, and no count has risen. `Device`: a read, a write or a flush failed; the
/// count of that reader or writer has risen by 1, and the other has not. In both cases what was read is gone
/// from the reader, and may be more than was answered. The text written is a beginning of the answer, perhaps
/// not flushed.
pub fn answer_input<C: TextLineCommand, R: Read, W: Write>(
    alloc: Global,
    command: C,
    reader: &mut Counted<R>,
    writer: &mut Counted<W>,
) -> Result<Status, RunError>
    requires uncounted { C.count_bound command ≡ 0 }
    requires reads { CanCount reader.old }
    requires writes { CanCount writer.old }
    ensures ran { Runs R.remaining W.contents reader.old reader.new writer.old writer.new
        (line_by_line (C.answers command)) result }
    ensures flushed { EndsFlushed result writer.old writer.new }
    ensures counts { CountsOneDevice result reader.old reader.new writer.old writer.new }
{
    let mut command = command;
    let mut lines = TextLines::new(alloc)?;
    let status = answer_lines(alloc, &mut command, &mut lines, reader, writer)?;
    finish(writer)?;
    Ok(status)
}
