//! `Counted`: a reader or writer whose failed calls and flushes are counted.

ghost use Rattle.std.specs.Prelude.{◌≡◌, ◌<◌, ◌≤◌, ◌+◌, ◌-◌, ◌^◌, false, length, max, IfOk, IsErr, is_ok};
ghost use Rattle.std.specs.Io.{ReadsAtMost, WritesAtMost};
ghost use Rattle.std.specs.Io.KnownBytes.{Keeps, ReadConsumes, WriteAppends};
ghost use Rattle.etcs_run.specs.Counted.{CountsFailure, CountsFlush, read_budget};
ghost use Rattle.etcs_run.specs.Counted.{failure_count, flush_count, wrapped, is_flushed};

use std::io::{Error, ErrorKind, Read, Result, Write};

/// A reader or writer with a count of its failed calls.
///
/// It starts with a budget of 2^64 - 1 bytes to read. Each read lowers the budget by the length of its
/// buffer, or by 1 if the buffer is empty. A read fails if the budget does not suffice. So a loop that reads
/// until the reader gives no more bytes ends for every reader.
///
/// A writer also counts the flushes that succeeded, and records whether everything written through it
/// has been flushed.
///
/// After an error no byte was given or taken, and the count of failures has risen by 1. Each count stops
/// at 2^64 - 1.
#[derive(Drop)]
pub struct Counted<T> {
    inner: T,
    failures: u64,
    budget: u64,
    flushes: u64,
    is_flushed: bool,
}

impl<T> Counted<T> {
    /// Wraps a reader or writer, without failures and with the full budget. It counts as not flushed, because
    /// it may still buffer what was written to it before.
    #[inline]
    pub fn new(inner: T) -> Counted<T>
        ensures inner { wrapped result ≡ inner }
        ensures failures { failure_count result ≡ 0 }
        ensures budget { read_budget result ≡ 2 ^ 64 - 1 }
        ensures flushes { flush_count result ≡ 0 }
        ensures flushed { is_flushed result ≡ false }
    {
        Counted {
            inner,
            failures: 0,
            budget: u64::MAX,
            flushes: 0,
            is_flushed: false,
        }
    }

    /// Unwraps the reader or writer, with what it holds. The counts are lost.
    #[inline]
    pub fn into_inner(self) -> T
        ensures { result ≡ wrapped self }
    {
        self.inner
    }

    /// The number of calls that have failed. The count stops at 2^64 - 1.
    #[inline]
    pub fn failures(&self) -> u64
        ensures { result ≡ failure_count self.now }
    {
        // Reads, writes and flushes alike.
        self.failures
    }

    /// The remaining budget, in bytes of the buffers that are passed to reads.
    #[inline]
    pub(crate) fn budget(&self) -> u64
        ensures { result ≡ read_budget self.now }
    {
        self.budget
    }
}

impl<R: Read> Read for Counted<R> {
    ghost remaining = { λ c. R.remaining (wrapped c) };

    /// Reads once. If the budget does not suffice, the read fails and the reader is not called. Every
    /// other failed read lowers the budget too.
    #[inline]
    fn read(&mut self, buf: &mut [u8]) -> Result<usize>
        ensures bound { ReadsAtMost result buf.new }
        ensures bytes { ReadConsumes (R.remaining (wrapped self.old))
            (R.remaining (wrapped self.new)) result buf.new }

        // What the call costs, and what it adds to the count.
        ensures counts { CountsFailure (failure_count self.old) (failure_count self.new) result }
        ensures lowers_budget { max (length buf.old) 1 ≤ read_budget self.old
            → read_budget self.new + max (length buf.old) 1 ≡ read_budget self.old }
        ensures spent { read_budget self.old < max (length buf.old) 1
            → IsErr result × (wrapped self.new ≡ wrapped self.old)
            × (read_budget self.new ≡ read_budget self.old) }
        ensures same_flushed { is_flushed self.new ≡ is_flushed self.old }
        ensures same_flushes { flush_count self.new ≡ flush_count self.old }
    {
        let cost = (buf.len() as u64).max(1);
        if self.budget < cost {
            self.failures = self.failures.saturating_add(1);
            return Err(Error::other("the budget is spent"));
        }
        self.budget -= cost;
        let result = self.inner.read(buf);
        if result.is_err() {
            self.failures = self.failures.saturating_add(1);
        }
        result
    }
}

impl<W: Write> Write for Counted<W> {
    ghost contents = { λ c. W.contents (wrapped c) };

    /// Writes once. A write fails if it takes no byte of a piece that is not empty. After any write,
    /// failed or not, the writer counts as not flushed.
    #[inline]
    fn write(&mut self, buf: &[u8]) -> Result<usize>
        ensures bound { WritesAtMost result buf.now }
        ensures bytes { WriteAppends (W.contents (wrapped self.old))
            (W.contents (wrapped self.new)) result buf.now }
        ensures counts { CountsFailure (failure_count self.old) (failure_count self.new) result }
        ensures takes { IfOk result (λ n. 0 < length buf.now → 0 < n) }
        ensures unflushed { is_flushed self.new ≡ false }
        ensures same_flushes { flush_count self.new ≡ flush_count self.old }
        ensures same_budget { read_budget self.new ≡ read_budget self.old }
    {
        self.is_flushed = false;
        match self.inner.write(buf) {
            Ok(0) if !buf.is_empty() => {
                self.failures = self.failures.saturating_add(1);
                Err(Error::new(ErrorKind::WriteZero, "nothing was taken"))
            }
            Ok(count) => Ok(count),
            Err(error) => {
                self.failures = self.failures.saturating_add(1);
                Err(error)
            }
        }
    }

    /// Flushes the writer. After an error the writer counts as not flushed, and what was written remains
    /// written.
    #[inline]
    fn flush(&mut self) -> Result<()>
        ensures bytes { Keeps (W.contents (wrapped self.old)) (W.contents (wrapped self.new)) }
        ensures counts { CountsFailure (failure_count self.old) (failure_count self.new) result }
        ensures flushed { is_flushed self.new ≡ is_ok result }
        ensures flushes { CountsFlush (flush_count self.old) (flush_count self.new) result }
        ensures same_budget { read_budget self.new ≡ read_budget self.old }
    {
        let result = self.inner.flush();
        self.is_flushed = result.is_ok();
        if self.is_flushed {
            self.flushes = self.flushes.saturating_add(1);
        } else {
            self.failures = self.failures.saturating_add(1);
        }
        result
    }
}
