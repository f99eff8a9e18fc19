//! `balisecheck`: [`run`] of `etcs_run`, from standard input to standard output.
//!
//! The contract of [`run`] states what is written for every input. This crate adds the arguments, standard
//! input and standard output, which no contract can describe, and help and advice on standard error.
#![tactic(auto)]

mod advice;
mod help;
mod prompt;

use crate::advice::advice_for;
use crate::help::help_for;
use crate::prompt::{Prompt, Shared};
pub use etcs_run::{Counted, RunError, Status, run};
use std::cell::RefCell;
use std::io::{self, BufWriter, Write};
use std::process::ExitCode;

/// The number of bytes of output that are buffered, unless the program waits for more input.
const ROOM: usize = 65_536;

/// The exit status of a run that stopped without a status.
const STOPPED: u8 = 3;

// The words of the command line, the program's name first.
fn arguments(rt: &HostRuntime) -> Result<Vec<String>, RunError> {
    let words = match std::env::args(rt) {
        Ok(words) => words,
        Err(error) => return Err(run_error(&error)),
    };
    match words.collect(rt.alloc()) {
        Ok(words) => Ok(words),
        Err(_) => Err(RunError::Memory),
    }
}

// Why there are no arguments: memory ran out, or one of them is not text.
fn run_error(error: &io::Error) -> RunError {
    match error.kind() {
        io::ErrorKind::OutOfMemory => RunError::Memory,
        _ => RunError::Device,
    }
}

// Writes help, the version or advice to standard error, if the words ask for it or are a usual mistake.
// Standard output and the status stay as the contract of `run` states them.
fn explain(rt: &HostRuntime, words: &[&str]) {
    if let Some(text) = help_for(words) {
        let _ = eprintln!(rt; "{text}");
    } else if let Some(text) = advice_for(words) {
        let _ = eprintln!(rt; "balisecheck: {text}");
    }
}

// Runs the command that the words give, from standard input to standard output.
fn run_words(rt: &HostRuntime, words: &[String]) -> Result<Status, RunError> {
    let alloc = rt.alloc();
    let words: Vec<&str> = match words.iter().map(|word| word.as_str()).collect(alloc) {
        Ok(words) => words,
        Err(_) => return Err(RunError::Memory),
    };
    let output = match BufWriter::with_capacity(alloc, ROOM, io::writer(rt)) {
        Ok(buffered) => RefCell::new(buffered),
        Err(_) => return Err(RunError::Memory),
    };
    let mut reader = Counted::new(Prompt::new(rt.reader(), &output));
    let mut writer = Counted::new(Shared::new(&output));
    let answer = run(alloc, words.as_slice(), &mut reader, &mut writer);
    if let Ok(Status::Refused) = answer {
        explain(rt, words.as_slice());
    }
    if answer.is_err() {
        // A run flushes only before it returns a status. What was written must reach the output
        // anyway.
        let _ = writer.flush();
    }
    answer
}

/// The exit status is 0 for done, 1 for findings and 2 for refused words or input. It is 3, with a
/// line on standard error, if an allocation or a device failed.
fn main(rt: HostRuntime) -> ExitCode {
    let answer = match arguments(&rt) {
        Ok(words) => run_words(&rt, words.as_slice()),
        Err(error) => Err(error),
    };
    match answer {
        Ok(status) => ExitCode::from(status.code()),
        Err(error) => {
            let _ = eprintln!(rt; "balisecheck: {error}");
            ExitCode::from(STOPPED)
        }
    }
}
