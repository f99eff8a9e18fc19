//! Connects standard input and output: the output is flushed before the program waits for more input, so that
//! a user who sends a line and waits for its answer gets it.

use std::cell::RefCell;
use std::io::{Error, Read, Result, Write};

/// A writer with two owners.
#[derive(Drop)]
pub struct Shared<'a, W> {
    output: &'a RefCell<W>,
}

impl<'a, W> Shared<'a, W> {
    /// One of the owners.
    pub fn new(output: &'a RefCell<W>) -> Shared<'a, W> {
        Shared { output }
    }
}

// Never happens: calls do not overlap.
fn in_use() -> Error {
    Error::other("the output is in use")
}

impl<W: Write> Write for Shared<'_, W> {
    fn write(&mut self, buf: &[u8]) -> Result<usize> {
        match self.output.try_borrow_mut() {
            Ok(mut output) => output.write(buf),
            Err(_) => Err(in_use()),
        }
    }

    fn flush(&mut self) -> Result<()> {
        match self.output.try_borrow_mut() {
            Ok(mut output) => output.flush(),
            Err(_) => Err(in_use()),
        }
    }
}

/// A reader that flushes the output before each of its reads. If the flush fails, the read fails.
#[derive(Drop)]
pub struct Prompt<'a, R, W> {
    input: R,
    output: Shared<'a, W>,
}

impl<'a, R, W> Prompt<'a, R, W> {
    /// The reader, and the output.
    pub fn new(input: R, output: &'a RefCell<W>) -> Prompt<'a, R, W> {
        let output = Shared::new(output);
        Prompt { input, output }
    }
}

impl<R: Read, W: Write> Read for Prompt<'_, R, W> {
    fn read(&mut self, buf: &mut [u8]) -> Result<usize> {
        self.output.flush()?;
        self.input.read(buf)
    }
}
