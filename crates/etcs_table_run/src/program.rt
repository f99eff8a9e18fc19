//! `run`: the whole program, from words and a reader to a writer and a status.

ghost use Rattle.std.specs.Prelude.{◌≡◌, ◌≤◌, ◌<◌, length, map, OnErr, OnOk};
ghost use Rattle.std.specs.Io.KnownBytes.{IsAtEnd};
ghost use Rattle.etcs_run.specs.Counted.{CanCount, CountsNone, CountsOne, wrapped};
ghost use Rattle.etcs_run.specs.Ran.{Answers, CountsOneDevice, EndsFlushed, Runs};
ghost use Rattle.etcs_table_run.specs.TableOutput.{program_output, usage};

use crate::checking::check_input;
use etcs_run::{Counted, RunError, Status, write_out};
use etcs_table::Headings;
use std::alloc::Global;
use std::io::{Read, Write};

// The usage line.
const USAGE: &str = "refused: usage is balisecheck_table, and the table is standard input\n";

/// Reads a table from the reader to its end, and writes the report on it, or why it is refused. The first of the words is
/// the program's name, and there are no others: with others the usage line is written, and nothing is read.
///
/// For a known input, the text written and the status are the output of that input. With a status, the writer was flushed
/// once, in its last call. Otherwise it was not flushed.
///
/// `Memory`: an allocation failed, and no count has risen. `Device`: a read, a write or a flush failed; the count of that
/// reader or writer has risen by 1, and the other has not. In both cases what was read is gone from the reader, and the
/// text written is a beginning of the output, perhaps not flushed.
pub fn run<'a, R: Read, W: Write>(
    alloc: Global,
    words: &'a [&'a str],
    reader: &mut Counted<R>,
    writer: &mut Counted<W>,
) -> Result<Status, RunError>
    // A failure can still be counted.
    requires reads { CanCount reader.old }
    requires writes { CanCount writer.old }

    // For a reader with a known input and a writer with known contents.
    ensures known { Answers R.remaining W.contents reader.old writer.old writer.new
        (program_output (map (λ w. w.now) words.entry.now)) result }

    // For every input that begins with what was read.
    ensures ran { Runs R.remaining W.contents reader.old reader.new writer.old writer.new
        (program_output (map (λ w. w.now) words.entry.now)) result }
    ensures unread { 1 < length words.entry.now → reader.new ≡ reader.old }

    // The table is read to its end.
    ensures to_end { length words.entry.now ≤ 1 → OnOk result (IsAtEnd (R.remaining (wrapped reader.new))) }
    ensures flushed { EndsFlushed result writer.old writer.new }

    // Only a failed device is counted, and `Device` is never returned for anything else.
    ensures counts { CountsOneDevice result reader.old reader.new writer.old writer.new }
{
    if 1 < words.len() {
        return write_out(writer, USAGE.as_bytes(), Status::Refused);
    }
    check_input(alloc, &Headings::usual(), reader, writer)
}
