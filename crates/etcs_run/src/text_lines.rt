//! `TextLines`: the lines of a reader, read in blocks.

ghost use Rattle.std.specs.Prelude.{◌≤◌, ◌<◌, vec_len, IfOk};

use crate::counted::Counted;
use crate::error::RunError;
use etcs_bits::Memory;
use std::alloc::Global;
use std::io::Read;

/// A buffer for one read.
pub(crate) fn new_block(alloc: Global) -> Result<Vec<u8>, Memory>
    ensures { IfOk result (λ block. 0 < vec_len block) }
{
    Ok(vec![in alloc; 0; 65_536]?)
}

/// The last line, and the bytes that were read and belong to no line yet.
///
/// A line ends at a `\n`, which is not part of it, or at the end of the input. Only memory limits
/// its length.
#[derive(Drop)]
pub struct TextLines {
    // The result of the last read. The bytes `from..to` belong to no line yet.
    block: Vec<u8>,
    from: usize,
    to: usize,
    line: Vec<u8>,
    // Whether a read has reached the end of the input.
    has_ended: bool,
    ghost ordered: { from ≤ to },
    ghost within: { to ≤ vec_len block },
    ghost room: { 0 < vec_len block },
}

impl TextLines {
    ghost use Rattle.std.specs.Prelude.{◌≡◌, ◌+◌, ◌++◌, ◌≤◌, ◌<◌, ◌↔◌, true, false, [], length, IfOk, IfSome, OnErr, OnOk, IfErr};
    ghost use Rattle.std.specs.Io.KnownBytes.{Consumes, Keeps};
    ghost use Rattle.etcs_run.specs.Counted.{CanCount, read_budget, wrapped};
    ghost use Rattle.etcs_run.specs.LineReading.{CountsDevice, IsEndMet, MovesLine, Reads};
    ghost use Rattle.etcs_run.specs.LineReading.{has_ended, held_bytes, last_line};
    ghost use Rattle.etcs_run.specs.TextLines.{HasLine};

    /// The lines of an input from which nothing was read yet. Fails only if memory runs out; then
    /// nothing is returned.
    pub fn new(alloc: Global) -> Result<TextLines, Memory>
        ensures fresh { IfOk result (λ l. (held_bytes l ≡ []) × (has_ended l ≡ false)) }
        ensures line { IfOk result (λ l. last_line l ≡ []) }
    {
        Ok(TextLines {
            block: new_block(alloc)?,
            from: 0,
            to: 0,
            line: Vec::new(alloc),
            has_ended: false,
        })
    }

    /// The last line, without its `\n`.
    #[inline]
    pub fn line(&self) -> &[u8]
        ensures { result.now ≡ last_line self.now }
    {
        self.line.as_slice()
    }

    // Moves the held bytes before the first `\n` to the line, and all of them if there is none.
    // Returns whether there is one.
    fn move_line(&mut self) -> Result<bool, Memory>
        ensures moves { IfOk result (λ found. MovesLine found self.old self.new) }
        ensures same_end { has_ended self.new ≡ has_ended self.old }
    {
        let held = &self.block[self.from..self.to];
        match memchr::memchr(b'\n', held) {
            Some(end) => {
                self.line.extend_from_slice(&held[..end])?;
                self.from += end + 1;
                Ok(true)
            }
            None => {
                self.line.extend_from_slice(held)?;
                self.from = self.to;
                Ok(false)
            }
        }
    }

    // Replaces the held bytes by more bytes. Reads nothing after the end of the input was reached.
    fn refill<R: Read>(&mut self, reader: &mut Counted<R>) -> Result<usize, RunError>
        requires { CanCount reader.old }
        ensures line { last_line self.new ≡ last_line self.old }
        ensures read { IfOk result (λ n. Consumes (R.remaining (wrapped reader.old))
            (R.remaining (wrapped reader.new)) (held_bytes self.new)
            × (length (held_bytes self.new) ≡ n) × (n ≡ 0 → has_ended self.new ≡ true)) }

        // At least `n` bytes of the budget are spent.
        ensures lowers_budget { IfOk result (λ n. (n + read_budget reader.new ≤ read_budget reader.old)
            × (0 < n → read_budget reader.new < read_budget reader.old)) }

        // A failed read loses no bytes.
        ensures kept { OnErr result (Keeps (R.remaining (wrapped reader.old))
            (R.remaining (wrapped reader.new))) }
        ensures device { IfErr result (λ e. e ≡ RunError.Device) }
        ensures counts { CountsDevice result reader.old reader.new }

        // Only a reader without remaining bytes reaches its end.
        ensures quiet { has_ended self.old ≡ true → IfOk result (λ n. n ≡ 0) }
        ensures unread { has_ended self.old ≡ true → reader.new ≡ reader.old }
        ensures ended { has_ended self.old ≡ true → has_ended self.new ≡ true }
        ensures met { IsEndMet R.remaining (has_ended self.old) reader.old
            → IsEndMet R.remaining (has_ended self.new) reader.new }
    {
        if self.has_ended {
            self.from = 0;
            self.to = 0;
            return Ok(0);
        }
        let count = reader.read(self.block.as_mut_slice())?;
        self.from = 0;
        self.to = count;
        self.has_ended = count == 0;
        Ok(count)
    }

    /// Finds the next line, and returns whether there is one. If not, the line is empty. The reader
    /// is not called if a complete line is held already, nor after the end of the input was reached.
    ///
    /// `Memory`: the line does not fit in memory. `Device`: a read failed, and the reader's count of
    /// failures has risen by 1. In both cases the bytes that were read are gone from the reader, and
    /// the lines are of no further use.
    pub fn next<R: Read>(&mut self, reader: &mut Counted<R>) -> Result<bool, RunError>
        requires { CanCount reader.old }
        ensures reads { Reads (R.remaining (wrapped reader.old)) (R.remaining (wrapped reader.new))
            (has_ended self.old) (held_bytes self.old) (last_line self.new) (held_bytes self.new)
            (has_ended self.new) result }

        // If the reader's bytes are known, there is no line if and only if no byte is held or remains.
        ensures no_line { IsEndMet R.remaining (has_ended self.old) reader.old
            → IfOk result (λ found. IfSome (R.remaining (wrapped reader.old))
            (λ left. (found ≡ false) ↔ (held_bytes self.old ++ left ≡ []))) }
        ensures empty { IfOk result (λ found. found ≡ false → last_line self.new ≡ []) }

        // The reader is not called for a line that is held, nor after the end.
        ensures held { HasLine (held_bytes self.old) → reader.new ≡ reader.old }
        ensures unread { has_ended self.old ≡ true → reader.new ≡ reader.old }
        ensures counts { CountsDevice result reader.old reader.new }
        ensures ended { has_ended self.old ≡ true → has_ended self.new ≡ true }
        ensures met { IsEndMet R.remaining (has_ended self.old) reader.old
            → IsEndMet R.remaining (has_ended self.new) reader.new }

        // Each line costs held bytes or budget.
        ensures lowers_budget { IfOk result (λ found. found ≡ true
            → 1 + (length (held_bytes self.new) + read_budget reader.new)
            ≤ length (held_bytes self.old) + read_budget reader.old) }

        // So does each byte of it.
        ensures bounded { OnOk result (length (last_line self.new)
            + (length (held_bytes self.new) + read_budget reader.new)
            ≤ length (held_bytes self.old) + read_budget reader.old) }
    {
        self.line.clear();
        'filling: while !self.move_line()? {
            if self.refill(reader)? == 0 {
                return Ok(!self.line.is_empty());
            }
        }
        Ok(true)
    }
}
