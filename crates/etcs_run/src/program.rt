//! `run`: the whole program, from words and a reader to a writer and a status. `execute`: one command of it.

ghost use Rattle.std.specs.Prelude.{◌≡◌, None, Some, OnOk, map};
ghost use Rattle.std.specs.Io.KnownBytes.{IsAtEnd};
ghost use Rattle.etcs_run.specs.Command.{parsed_command};
ghost use Rattle.etcs_run.specs.Counted.{CanCount, wrapped};
ghost use Rattle.etcs_run.specs.Commands.{command_output, program_output};
ghost use Rattle.etcs_run.specs.Output.{each_text_line};
ghost use Rattle.etcs_run.specs.Ran.{Answers, CountsOneDevice, EndsFlushed, Runs};

use crate::answering::answer_input;
use crate::checking::check_input;
use crate::command::{Command, read_command};
use crate::counted::Counted;
use crate::each_text_line::EachTextLine;
use crate::error::RunError;
use crate::form_lines::Encoding;
use crate::output::write_out;
use crate::radio_decoding::RadioDecoding;
use crate::status::Status;
use crate::telegram_lines::DecodingTelegrams;
use crate::text_line_meaning::TextLineMeaning;
use etcs_document::{Refusal, refusal_text};
use etcs_radio::Message;
use etcs_telegram::Telegram;
use std::alloc::Global;
use std::io::{Read, Write};

// Answers each line by its meaning.
fn answer_each<M: TextLineMeaning, R: Read, W: Write>(
    alloc: Global,
    meaning: M,
    reader: &mut Counted<R>,
    writer: &mut Counted<W>,
) -> Result<Status, RunError>
    requires reads { CanCount reader.old }
    requires writes { CanCount writer.old }
    ensures ran { Runs R.remaining W.contents reader.old reader.new writer.old writer.new
        (each_text_line M.meaning) result }
    ensures flushed { EndsFlushed result writer.old writer.new }
    ensures counts { CountsOneDevice result reader.old reader.new writer.old writer.new }
{
    answer_input(alloc, EachTextLine::new(alloc, meaning), reader, writer)
}

/// Runs a command, from the reader to the writer. `check` gives a status only after the input was read to its
/// end, and writes nothing before.
///
/// For a known input, the text written and the status are the output of that input. They depend only on what
/// was read, so they are the output of every input that begins with it. Reaching the end of the input counts
/// as reading it. With a status, the writer was flushed once, in its last call. Otherwise it was not flushed.
///
/// `Memory`: an allocation failed, and no count has risen. `Device`: a read, a write or a flush failed; the
/// count of that reader or writer has risen by 1, and the other has not. In both cases what was read is gone
/// from the reader, and the text written is a beginning of the output, perhaps not flushed.
pub fn execute<R: Read, W: Write>(
    alloc: Global,
    command: Command,
    reader: &mut Counted<R>,
    writer: &mut Counted<W>,
) -> Result<Status, RunError>
    // A failure can still be counted.
    requires reads { CanCount reader.old }
    requires writes { CanCount writer.old }

    // For a reader with a known input and a writer with known contents.
    ensures known { Answers R.remaining W.contents reader.old writer.old writer.new
        (command_output command) result }

    // For every input that begins with what was read.
    ensures ran { Runs R.remaining W.contents reader.old reader.new writer.old writer.new
        (command_output command) result }

    // `check` reads its input to the end.
    ensures to_end { command ≡ Command.Check → OnOk result (IsAtEnd (R.remaining (wrapped reader.new))) }
    ensures flushed { EndsFlushed result writer.old writer.new }

    // Only a failed device is counted, and `Device` is never returned for anything else.
    ensures counts { CountsOneDevice result reader.old reader.new writer.old writer.new }
{
    match command {
        Command::Check => check_input(alloc, reader, writer),
        Command::Decode => answer_each(alloc, DecodingTelegrams, reader, writer),
        Command::DecodeRadio => answer_input(alloc, RadioDecoding::new(alloc), reader, writer),
        Command::Encode => answer_each(alloc, Encoding::<Telegram>::new(alloc), reader, writer),
        Command::EncodeRadio => answer_each(alloc, Encoding::<Message>::new(alloc), reader, writer),
    }
}

/// Runs the command that the words give, as [`execute`] does. The first word is the program's name. Words that
/// are not a command give the usage line, and then nothing is read.
///
/// `Memory` and `Device` are those of [`execute`]; memory is also needed to read the words.
pub fn run<'a, R: Read, W: Write>(
    alloc: Global,
    words: &'a [&'a str],
    reader: &mut Counted<R>,
    writer: &mut Counted<W>,
) -> Result<Status, RunError>
    // A failure can still be counted.
    requires reads { CanCount reader.old }
    requires writes { CanCount writer.old }

    // For a reader with a known input and a writer with known contents.
    ensures known { Answers R.remaining W.contents reader.old writer.old writer.new
        (program_output (map (λ w. w.now) words.entry.now)) result }

    // For every input that begins with what was read.
    ensures ran { Runs R.remaining W.contents reader.old reader.new writer.old writer.new
        (program_output (map (λ w. w.now) words.entry.now)) result }
    ensures unread { parsed_command (map (λ w. w.now) words.entry.now) ≡ None → reader.new ≡ reader.old }

    // `check` reads its input to the end.
    ensures to_end { parsed_command (map (λ w. w.now) words.entry.now) ≡ Some Command.Check
        → OnOk result (IsAtEnd (R.remaining (wrapped reader.new))) }
    ensures flushed { EndsFlushed result writer.old writer.new }

    // Only a failed device is counted, and `Device` is never returned for anything else.
    ensures counts { CountsOneDevice result reader.old reader.new writer.old writer.new }
{
    let Some(command) = read_command(alloc, words)? else {
        let text = refusal_text(alloc, &Refusal::Usage)?;
        return write_out(writer, text.as_bytes(), Status::Refused);
    };
    execute(alloc, command, reader, writer)
}
