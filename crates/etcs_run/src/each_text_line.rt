//! `EachTextLine`: a `TextLineCommand` that answers each line of the input by its `TextLineMeaning`.

ghost use Rattle.std.specs.Prelude.{◌≡◌, [], Err};
ghost use Rattle.etcs_document.specs.Refusal.{line_words};
ghost use Rattle.etcs_run.specs.Counted.{CanCount, FlushesNone, wrapped};
ghost use Rattle.etcs_run.specs.LineReading.{CountsDevice};
ghost use Rattle.etcs_run.specs.TextLines.{trimmed};
ghost use Rattle.etcs_run.specs.Output.{answered};
ghost use Rattle.etcs_run.specs.Ran.{AnswersNextLine, AnswersLine};

use crate::control_flow::ControlFlow;
use crate::counted::Counted;
use crate::error::RunError;
use crate::output::{put, refuse};
use crate::status::Status;
use crate::text_line_command::TextLineCommand;
use crate::text_line_meaning::{TextLineMeaning, Unwritten};
use etcs_document::{LineFault, Refusal};
use std::alloc::Global;
use std::io::Write;
use std::mem;

// The line without a `\r` at its end. Only one is removed.
#[inline]
pub(crate) fn trim(line: &[u8]) -> &[u8]
    ensures { result.now ≡ trimmed line.now }
{
    match line {
        [rest @ .., b'\r'] => rest,
        _ => line,
    }
}

// Writes the refusal of the line with this number. Lines count from 1.
#[tactic(auto, unfolding(crate::specs::TextLineMeaning::line_refusal, etcs_document::specs::Refusal::refusal_words))]
pub(crate) fn refuse_line<W: Write>(
    alloc: Global,
    number: u64,
    why: LineFault,
    writer: &mut Counted<W>,
) -> Result<ControlFlow, RunError>
    requires { CanCount writer.old }
    ensures answers_line { AnswersLine (W.contents (wrapped writer.old)) (W.contents (wrapped writer.new))
        (answered number (Err (line_words why))) result }
    ensures counts { CountsDevice result writer.old writer.new }
    ensures unflushed { FlushesNone writer.old writer.new }
{
    let status = refuse(alloc, &Refusal::Line(number, why), writer)?;
    Ok(ControlFlow::Stop(status))
}

/// A command that answers each line by itself. Each line becomes its text, up to the first line without a
/// text, which becomes its refusal and ends the run.
#[derive(Drop)]
pub struct EachTextLine<M> {
    meaning: M,
    // The last text. Its buffer is reused for the next one.
    room: Vec<u8>,
}

impl<M: TextLineMeaning> EachTextLine<M> {
    /// The command, before its first line. Allocates nothing yet.
    pub fn new(alloc: Global, meaning: M) -> EachTextLine<M> {
        EachTextLine {
            meaning,
            room: Vec::new(alloc),
        }
    }
}

impl<M: TextLineMeaning> TextLineCommand for EachTextLine<M> {
    ghost use Rattle.etcs_run.specs.Output.{answers};

    ghost answers = { λ _. answers M.meaning };

    ghost count_bound = { λ _. 0 };

    /// Writes the text of the line, or its refusal. An empty line leaves the writer unchanged and
    /// never fails. A line with only a `\r` is empty.
    ///
    /// `Memory`: an allocation failed. `Device`: a write failed, and the writer's count of
    /// failures has risen by 1. In both cases what was written is a beginning of the text or of the
    /// refusal.
    fn answer<W: Write>(
        &mut self,
        alloc: Global,
        number: u64,
        line: &[u8],
        writer: &mut Counted<W>,
    ) -> Result<ControlFlow, RunError>
        requires { CanCount writer.old }
        ensures answers_line { AnswersNextLine (W.contents (wrapped writer.old)) (W.contents (wrapped writer.new))
            (answers M.meaning) (answers M.meaning) number line.now result }
        ensures counts { CountsDevice result writer.old writer.new }
        ensures unflushed { FlushesNone writer.old writer.new }
        ensures empty { trimmed line.now ≡ [] → (result ≡ Ok ControlFlow.Next) × (writer.new ≡ writer.old) }
    {
        let line = trim(line);
        if line.is_empty() {
            return Ok(ControlFlow::Next);
        }
        let earlier = mem::replace(&mut self.room, Vec::new(alloc));
        match self.meaning.text(alloc, earlier, line) {
            Ok(text) => {
                put(writer, text.as_slice())?;
                self.room = text;
                Ok(ControlFlow::Next)
            }
            Err(Unwritten::Memory) => Err(RunError::Memory),
            Err(Unwritten::Refused(why)) => refuse_line(alloc, number, why, writer),
        }
    }

    fn end<W: Write>(
        &mut self,
        _alloc: Global,
        _writer: &mut Counted<W>,
    ) -> Result<Status, RunError> {
        Ok(Status::Done)
    }
}
