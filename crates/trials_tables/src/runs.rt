//! The run of `balisecheck_table`: its texts and statuses, a device that fails at each call in turn, and the usage line.

use etcs_table_run::{Counted, RunError, Status, run};
use std::alloc::Global;
use std::io::{self, Read, Write};
use std::test::Fail;

const SOUND: &str = "group,telegram\nA,a1007f802000ffffffffffffffffffffffffffffffffffffffffc0\n";

// Its only balise names a next one as its duplicate.
const WRONG: &str = "group,telegram\nA,a100ff802000ffffffffffffffffffffffffffffffffffffffffc0\n";

const YES: &str = "yes: groups 1, telegrams 1\n";

// The program without words.
const ALONE: &[&str] = &["balisecheck_table"];

/// Gives or takes at most seven bytes a call, and fails at one call, counted from 0.
#[derive(Drop)]
struct Device {
    calls: u64,
    failure: u64,
}

impl Device {
    // How many of so many bytes the next call moves.
    fn call(&mut self, len: usize) -> io::Result<usize> {
        let call = self.calls;
        self.calls = call.saturating_add(1);
        if call == self.failure {
            return Err(io::Error::other("broken"));
        }
        Ok(len.min(7))
    }
}

#[derive(Drop)]
struct Source<'a> {
    rest: &'a [u8],
    device: Device,
}

impl Read for Source<'_> {
    fn read(&mut self, buf: &mut [u8]) -> io::Result<usize> {
        let count = self.device.call(buf.len().min(self.rest.len()))?;
        let count = count.min(buf.len()).min(self.rest.len());
        buf[..count].copy_from_slice(&self.rest[..count]);
        self.rest = &self.rest[count..];
        Ok(count)
    }
}

#[derive(Drop)]
struct Sink {
    taken: Vec<u8>,
    device: Device,
}

impl Write for Sink {
    fn write(&mut self, buf: &[u8]) -> io::Result<usize> {
        let count = self.device.call(buf.len())?.min(buf.len());
        self.taken.extend_from_slice(&buf[..count])?;
        Ok(count)
    }

    fn flush(&mut self) -> io::Result<()> {
        self.device.call(0)?;
        Ok(())
    }
}

/// The answer of a run, what was written, and how many calls each side got.
#[derive(Drop)]
struct Outcome {
    answer: Result<Status, RunError>,
    text: Vec<u8>,
    reads: u64,
    writes: u64,
}

// Runs the program with these words on a table. The reader fails at one call, and the writer at another.
fn run_failing(alloc: Global, words: &[&str], table: &str, read: u64, write: u64) -> Outcome {
    let mut source = Source {
        rest: table.as_bytes(),
        device: Device {
            calls: 0,
            failure: read,
        },
    };
    let mut sink = Sink {
        taken: Vec::new(alloc),
        device: Device {
            calls: 0,
            failure: write,
        },
    };
    let mut reader = Counted::new(&mut source);
    let mut writer = Counted::new(&mut sink);
    let answer = run(alloc, words, &mut reader, &mut writer);
    Outcome {
        answer,
        reads: source.device.calls,
        writes: sink.device.calls,
        text: sink.taken,
    }
}

// Runs the program without words on a table, with devices that never fail.
fn run_sound(alloc: Global, table: &str) -> Outcome {
    run_failing(alloc, ALONE, table, u64::MAX, u64::MAX)
}

#[test]
fn each_table_has_its_text_and_status(rt: HostRuntime) -> Result<(), Fail> {
    let cases = [
        (SOUND, YES, Status::Done),
        (
            WRONG,
            "no: findings 1\nF4 row 2: mark points outside\n",
            Status::Findings,
        ),
        ("", "refused: no heading row\n", Status::Refused),
        (
            "group,telegram\n\nA,00\n",
            "refused: row 3: wrong size\n",
            Status::Refused,
        ),
        (
            "Group,telegram\nA,1,2\n",
            "refused: row 2: text to the right of the headings\n",
            Status::Refused,
        ),
        (
            "group,telegram,group\n",
            "refused: row 1: heading group twice\n",
            Status::Refused,
        ),
        (
            "group,telegram\n\"A,1\n",
            "refused: row 2: a quote that is not closed\n",
            Status::Refused,
        ),
    ];
    for (table, text, status) in cases {
        let outcome = run_sound(rt.alloc(), table);
        assert_eq!(rt; outcome.answer, Ok(status));
        assert!(rt; outcome.text.as_slice() == text.as_bytes());
    }
    Ok(())
}

#[test]
fn other_words_give_the_usage_line(rt: HostRuntime) -> Result<(), Fail> {
    let words = ["balisecheck_table", "table.csv"];
    let outcome = run_failing(rt.alloc(), words.as_slice(), SOUND, u64::MAX, u64::MAX);
    assert_eq!(rt; outcome.answer, Ok(Status::Refused));
    assert_eq!(rt; outcome.reads, 0);
    let wanted = "refused: usage is balisecheck_table, and the table is standard input\n";
    assert!(rt; outcome.text.as_slice() == wanted.as_bytes());
    Ok(())
}

#[test]
fn a_read_that_fails_leaves_no_answer(rt: HostRuntime) -> Result<(), Fail> {
    for call in 0..run_sound(rt.alloc(), SOUND).reads {
        let outcome = run_failing(rt.alloc(), ALONE, SOUND, call, u64::MAX);
        assert_eq!(rt; outcome.answer, Err(RunError::Device));
        assert_eq!(rt; outcome.reads, call + 1);
        assert_eq!(rt; outcome.writes, 0);
    }
    Ok(())
}

#[test]
fn a_write_that_fails_leaves_a_beginning_of_the_answer(rt: HostRuntime) -> Result<(), Fail> {
    for call in 0..run_sound(rt.alloc(), SOUND).writes {
        let outcome = run_failing(rt.alloc(), ALONE, SOUND, u64::MAX, call);
        assert_eq!(rt; outcome.answer, Err(RunError::Device));
        assert_eq!(rt; outcome.writes, call + 1);
        assert!(rt; YES.as_bytes().starts_with(outcome.text.as_slice()));
    }
    Ok(())
}
