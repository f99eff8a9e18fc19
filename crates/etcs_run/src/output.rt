//! Functions that write to a `Counted` writer: `put`, `write_out`, `finish`, and `refuse` for the text of a refusal.

ghost use Rattle.std.specs.Prelude.{◌≡◌, IfErr};
ghost use Rattle.std.specs.Io.KnownBytes.{Keeps};
ghost use Rattle.etcs_run.specs.Counted.{CanCount, FlushesNone, wrapped};
ghost use Rattle.etcs_run.specs.LineReading.{CountsDevice};
ghost use Rattle.etcs_run.specs.Output.{refusal_output};
ghost use Rattle.etcs_run.specs.Ran.{EndsFlushed, Writes, WritesBytes};

use crate::counted::Counted;
use crate::error::RunError;
use crate::status::Status;
use etcs_document::{Refusal, refusal_text};
use std::alloc::Global;
use std::io::Write;

/// Writes the text.
///
/// `Device`: a write failed, and the writer's count of failures has risen by 1. What was written before
/// that is a beginning of the text.
// Not `write_all`: its contract does not state what was written before a failure.
pub fn put<W: Write>(writer: &mut Counted<W>, text: &[u8]) -> Result<(), RunError>
    requires { CanCount writer.old }
    ensures written { WritesBytes (W.contents (wrapped writer.old)) (W.contents (wrapped writer.new))
        text.now result }
    ensures counts { CountsDevice result writer.old writer.new }
    ensures unflushed { FlushesNone writer.old writer.new }
    ensures device { IfErr result (λ e. e ≡ RunError.Device) }
{
    let mut count = 0;
    'writing: while count < text.len() {
        count += writer.write(&text[count..])?;
    }
    Ok(())
}

/// Flushes the writer at the end of a run.
///
/// `Device`: the flush failed, and the writer's count of failures has risen by 1. What was written
/// remains written.
pub fn finish<W: Write>(writer: &mut Counted<W>) -> Result<(), RunError>
    requires { CanCount writer.old }
    ensures kept { Keeps (W.contents (wrapped writer.old)) (W.contents (wrapped writer.new)) }
    ensures flushed { EndsFlushed result writer.old writer.new }
    ensures counts { CountsDevice result writer.old writer.new }
    ensures device { IfErr result (λ e. e ≡ RunError.Device) }
{
    writer.flush()?;
    Ok(())
}

/// Writes the text that is the whole output of a run, and flushes the writer. Returns the status.
///
/// `Device`: a write or the flush failed, and the writer's count of failures has risen by 1. What was
/// written is a beginning of the text.
pub fn write_out<W: Write>(
    writer: &mut Counted<W>,
    text: &[u8],
    status: Status,
) -> Result<Status, RunError>
    requires { CanCount writer.old }
    ensures writes { Writes (W.contents (wrapped writer.old)) (W.contents (wrapped writer.new))
        (text.now, status) result }
    ensures flushed { EndsFlushed result writer.old writer.new }
    ensures counts { CountsDevice result writer.old writer.new }
    ensures device { IfErr result (λ e. e ≡ RunError.Device) }
{
    put(writer, text)?;
    finish(writer)?;
    Ok(status)
}

/// Writes the refusal of the words, of a line or of a message, with its `\n`.
///
/// `Memory`: an allocation failed. `Device`: a write failed, and the writer's count of failures has risen by 1.
/// In both cases what was written is a beginning of the refusal.
pub fn refuse<W: Write>(
    alloc: Global,
    why: &Refusal,
    writer: &mut Counted<W>,
) -> Result<Status, RunError>
    requires { CanCount writer.old }
    ensures writes { Writes (W.contents (wrapped writer.old)) (W.contents (wrapped writer.new))
        (refusal_output why.now) result }
    ensures counts { CountsDevice result writer.old writer.new }
    ensures unflushed { FlushesNone writer.old writer.new }
{
    let text = refusal_text(alloc, why)?;
    put(writer, text.as_bytes())?;
    Ok(Status::Refused)
}
