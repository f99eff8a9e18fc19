//! `balisecheck_table`: [`run`] of `etcs_table_run`, from standard input to standard output.
//!
//! The contract of [`run`] states what is written for every table. This crate adds the arguments, standard input and
//! standard output, which no contract can describe, and help on standard error.
#![tactic(auto)]

mod help;

use crate::help::help_for;
pub use etcs_table_run::{Counted, RunError, Status, run};
use std::io::{self, BufWriter, Write};
use std::process::ExitCode;

/// The exit status of a run that stopped without a status.
const STOPPED: u8 = 3;

// The words of the command line, the program's name first.
fn arguments(rt: &HostRuntime) -> Result<Vec<String>, RunError> {
    let words = match std::env::args(rt) {
        Ok(words) => words,
        Err(error) => return Err(run_error(&error)),
    };
    match words.collect(rt.alloc()) {
        Ok(words) => Ok(words),
        Err(_) => Err(RunError::Memory),
    }
}

// Why there are no arguments: memory ran out, or one of them is not text.
fn run_error(error: &io::Error) -> RunError {
    match error.kind() {
        io::ErrorKind::OutOfMemory => RunError::Memory,
        _ => RunError::Device,
    }
}

// Reads the table from standard input, and writes the report on it to standard output.
fn run_words(rt: &HostRuntime, words: &[String]) -> Result<Status, RunError> {
    let alloc = rt.alloc();
    let words: Vec<&str> = match words.iter().map(|word| word.as_str()).collect(alloc) {
        Ok(words) => words,
        Err(_) => return Err(RunError::Memory),
    };
    let output = match BufWriter::new(alloc, io::writer(rt)) {
        Ok(output) => output,
        Err(_) => return Err(RunError::Memory),
    };
    let mut reader = Counted::new(rt.reader());
    let mut writer = Counted::new(output);
    let answer = run(alloc, words.as_slice(), &mut reader, &mut writer);
    if let Ok(Status::Refused) = answer {
        if let Some(text) = help_for(words.as_slice()) {
            let _ = eprintln!(rt; "{text}");
        }
    }
    if answer.is_err() {
        // A run flushes only before it returns a status. What was written must reach the output anyway.
        let _ = writer.flush();
    }
    answer
}

/// The exit status is 0 for yes, 1 for findings and 2 for refused words or a refused table. It is 3, with a line on standard
/// error, if an allocation or a device failed.
fn main(rt: HostRuntime) -> ExitCode {
    let answer = match arguments(&rt) {
        Ok(words) => run_words(&rt, words.as_slice()),
        Err(error) => Err(error),
    };
    match answer {
        Ok(status) => ExitCode::from(status.code()),
        Err(error) => {
            let _ = eprintln!(rt; "balisecheck_table: {error}");
            ExitCode::from(STOPPED)
        }
    }
}
