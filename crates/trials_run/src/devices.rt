//! Readers and writers over memory, which move few bytes a call or fail at one, and `run` between them.

ghost use Rattle.std.specs.Prelude.{◌≤◌, IfOk};

use etcs_run::{Counted, RunError, Status, run};
use std::alloc::Global;
use std::io::{self, Read, Write};

/// How a device fails at a call.
#[derive(Clone, Copy, Debug, PartialEq, Eq)]
pub enum Wrong {
    Error,
    Interrupted,
    MovesNothing,
}

/// Moves at most `piece` bytes a call, and may fail at one call, counted from 0.
#[derive(Drop)]
pub struct Device {
    piece: usize,
    failure: Option<(Wrong, u64)>,
    calls: u64,
}

impl Device {
    pub fn new(piece: usize) -> Device {
        Device {
            piece,
            failure: None,
            calls: 0,
        }
    }

    pub fn failing(piece: usize, wrong: Wrong, call: u64) -> Device {
        Device {
            piece,
            failure: Some((wrong, call)),
            calls: 0,
        }
    }

    /// A device that moves all bytes of each call.
    pub fn sound() -> Device {
        Device::new(usize::MAX)
    }

    // How many of `len` bytes the next call moves.
    fn call(&mut self, len: usize) -> io::Result<usize>
        ensures { IfOk result (λ n. n ≤ len) }
    {
        let call = self.calls;
        self.calls = call.saturating_add(1);
        match self.failure {
            Some((Wrong::Error, at)) if at == call => Err(io::Error::other("broken")),
            Some((Wrong::Interrupted, at)) if at == call => {
                Err(io::Error::new(io::ErrorKind::Interrupted, "interrupted"))
            }
            Some((Wrong::MovesNothing, at)) if at == call => Ok(0),
            _ => Ok(self.piece.min(len)),
        }
    }
}

/// A reader of bytes.
#[derive(Drop)]
pub struct Source<'a> {
    rest: &'a [u8],
    device: Device,
}

impl<'a> Source<'a> {
    pub fn new(rest: &'a [u8], device: Device) -> Source<'a> {
        Source { rest, device }
    }
}

impl Read for Source<'_> {
    fn read(&mut self, buf: &mut [u8]) -> io::Result<usize> {
        let count = self.device.call(buf.len().min(self.rest.len()))?;
        buf[..count].copy_from_slice(&self.rest[..count]);
        self.rest = &self.rest[count..];
        Ok(count)
    }
}

/// A writer that keeps what it takes.
#[derive(Drop)]
pub struct Sink {
    taken: Vec<u8>,
    device: Device,
    flushes: u64,
    // Whether the last call was a flush.
    ends_flushed: bool,
}

impl Sink {
    /// Nothing is taken yet.
    pub fn new(alloc: Global, device: Device) -> Sink {
        Sink {
            taken: Vec::new(alloc),
            device,
            flushes: 0,
            ends_flushed: false,
        }
    }

    /// The bytes that were taken.
    pub fn taken(&self) -> &[u8] {
        self.taken.as_slice()
    }
}

impl Write for Sink {
    fn write(&mut self, buf: &[u8]) -> io::Result<usize> {
        self.ends_flushed = false;
        let count = self.device.call(buf.len())?;
        self.taken.extend_from_slice(&buf[..count])?;
        Ok(count)
    }

    fn flush(&mut self) -> io::Result<()> {
        self.ends_flushed = true;
        self.flushes = self.flushes.saturating_add(1);
        self.device.call(0)?;
        Ok(())
    }
}

/// The outcome of a run: its answer, what was written, and the calls on either side, all and failed.
#[derive(Drop)]
pub struct Outcome {
    pub answer: Result<Status, RunError>,
    pub text: Vec<u8>,
    pub reads: u64,
    /// Writes and flushes.
    pub writes: u64,
    pub flushes: u64,
    /// Whether the last of these calls was a flush.
    pub ends_flushed: bool,
    pub failed_reads: u64,
    pub failed_writes: u64,
}

/// Runs the words on the input, between the two devices.
pub fn run_between(
    alloc: Global,
    words: &[&str],
    input: &[u8],
    from: Device,
    to: Device,
) -> Outcome {
    let mut source = Source::new(input, from);
    let mut sink = Sink::new(alloc, to);
    let mut reader = Counted::new(&mut source);
    let mut writer = Counted::new(&mut sink);
    let answer = run(alloc, words, &mut reader, &mut writer);
    let failed_reads = reader.failures();
    let failed_writes = writer.failures();
    Outcome {
        answer,
        reads: source.device.calls,
        writes: sink.device.calls,
        flushes: sink.flushes,
        ends_flushed: sink.ends_flushed,
        text: sink.taken,
        failed_reads,
        failed_writes,
    }
}
