//! `TextLineCommand`: what a command does with an input, line by line.

ghost use Rattle.std.specs.Prelude.{◌≡◌, ℕ, ◌+◌, ◌<◌, ◌≤◌, ◌^◌, List, [], length, OnOk};
ghost use Rattle.etcs_run.specs.Counted.{CanCount, FlushesNone, wrapped};
ghost use Rattle.etcs_run.specs.LineReading.{CountsDevice};
ghost use Rattle.etcs_run.specs.Output.{Output};
ghost use Rattle.etcs_run.specs.Ran.{AnswersNextLine, Writes};

use crate::control_flow::ControlFlow;
use crate::counted::Counted;
use crate::error::RunError;
use crate::status::Status;
use std::alloc::Global;
use std::io::Write;

/// A command that answers its input line by line. It may carry state from one line to the next.
pub trait TextLineCommand: Drop {
    /// What is written from the line with this number on, for the remaining lines.
    ghost answers: { Self → ℕ → List (List ℕ) → Output };

    /// A bound of what is counted. Each byte of a line raises it by at most one, so that no count can
    /// overflow.
    ghost count_bound: { Self → ℕ };

    /// Writes the answer to the line with this number.
    ///
    /// `Memory`: an allocation failed. `Device`: a write failed, and the writer's count of
    /// failures has risen by 1. In both cases what was written is a beginning of the answer, and the
    /// command is of no further use.
    fn answer<W: Write>(
        &mut self,
        alloc: Global,
        number: u64,
        line: &[u8],
        writer: &mut Counted<W>,
    ) -> Result<ControlFlow, RunError>
        requires numbered { count_bound self.old + length line.now < 2 ^ 64 }
        requires writes { CanCount writer.old }
        ensures answers_line { AnswersNextLine (W.contents (wrapped writer.old)) (W.contents (wrapped writer.new))
            (answers self.old) (answers self.new) number line.now result }
        ensures bounded { OnOk result (count_bound self.new ≤ count_bound self.old + length line.now) }
        ensures counts { CountsDevice result writer.old writer.new }
        ensures unflushed { FlushesNone writer.old writer.new };

    /// Writes the answer to the end of the input. An answer without a text leaves the writer unchanged,
    /// and never fails.
    ///
    /// `Memory`: an allocation failed. `Device`: a write failed, and the writer's count of
    /// failures has risen by 1. In both cases what was written is a beginning of the answer. Nothing is
    /// flushed.
    fn end<W: Write>(&mut self, alloc: Global, writer: &mut Counted<W>) -> Result<Status, RunError>
        requires { CanCount writer.old }
        ensures writes { (number : ℕ) → Writes (W.contents (wrapped writer.old))
            (W.contents (wrapped writer.new)) (answers self.old number []) result }
        ensures counts { CountsDevice result writer.old writer.new }
        ensures unflushed { FlushesNone writer.old writer.new }

        // Without a text, nothing can fail.
        ensures silent { (number : ℕ) → (answers self.old number []).0 ≡ []
            → (result ≡ Ok (answers self.old number []).1) × (writer.new ≡ writer.old) };
}
