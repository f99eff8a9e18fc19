//! Functions that read and write bits that are kept as they are, after L_PACKET: `scan_kept` and `put_kept`.

ghost use Rattle.std.specs.Prelude.{◌≡◌, ◌≤◌, ◌<◌, ◌+◌, ◌-◌, length, true, IfOk};
ghost use Rattle.etcs_bits.specs.bits.Number.{num_of_bits};
ghost use Rattle.etcs_bits.specs.layout.Format.{kept_bits};
ghost use Rattle.etcs_bits.specs.layout.Combined.{is_countable, l_kept};
ghost use Rattle.etcs_bits.specs.layout.Reading.{read_field, read_rows};
ghost use Rattle.etcs_bits.specs.layout.Results.{Gives, IfMemory, Puts};
ghost use Rattle.etcs_bits.specs.layout.Rows.{join};
ghost use Rattle.etcs_bits.specs.variables.Variables.{free};

use crate::bits::Bits;
use crate::bits::cursor::Cursor;
use crate::bits::memory::Memory;
use crate::bits::slice::BitSlice;
use crate::layout::fault::{DecodeError, FaultKind, refused};

/// Whether L_PACKET can count these bits. It has 13 bits, and counts the `before` bits ahead of it and
/// its own too.
#[inline]
pub fn can_keep(before: u32, bits: &Bits) -> bool
    ensures { result ≡ is_countable before (length bits.now) }
{
    (bits.len() as u64).saturating_add(u64::from(before) + 13) <= 8191
}

// Reads L_PACKET of bits that are kept.
#[inline]
fn scan_length(before: u32, cur: &mut Cursor<'_>) -> Result<u64, DecodeError>
    ensures gives { Gives (λ n. n) result (read_field (l_kept before) cur.old) cur.new }
    ensures least { IfOk result (λ n. before + 13 ≤ n) }
    ensures most { IfOk result (λ n. n < 8192) }

    // Reading L_PACKET takes no memory.
    ensures memory { IfMemory result ⊥ }
{
    let at = cur.at();
    let length = cur.take(13)?;
    if length < u64::from(before) + 13 {
        return Err(refused(at, cur, FaultKind::Length));
    }
    Ok(length)
}

// The next bits, borrowed.
#[inline]
fn scan_bits<'a>(cur: &mut Cursor<'a>, width: usize) -> Result<BitSlice<'a>, DecodeError>
    ensures gives { Gives num_of_bits result (read_field (free width) cur.old) cur.new }
    ensures len { IfOk result (λ bits. length bits ≡ width) }
    ensures memory { IfMemory result ⊥ }
{
    Ok(cur.take_slice(width)?)
}

/// Reads L_PACKET, after `before` bits of its packet, and the bits after it, borrowed. A number less
/// than `before` and its own 13 bits is a Length fault at once (SUBSET-026, 7.4.1). After an error
/// the cursor may stand anywhere.
#[inline]
pub fn scan_kept<'a>(before: u32, cur: &mut Cursor<'a>) -> Result<BitSlice<'a>, DecodeError>
    ensures gives { Gives (kept_bits before).rows result (read_rows (kept_bits before).fields cur.old) cur.new }
    ensures few { IfOk result (λ bits. is_countable before (length bits) ≡ true) }

    // Reading borrowed bits takes no memory.
    ensures memory { IfMemory result ⊥ }
{
    let length = scan_length(before, cur)?;
    scan_bits(cur, (length - u64::from(before) - 13) as usize)
}

/// Appends L_PACKET, after `before` bits of its packet, and the bits. If memory runs out, a part of
/// them may be appended.
pub fn put_kept(before: u32, bits: &Bits, out: &mut Bits) -> Result<(), Memory>
    requires { is_countable before (length bits.now) ≡ true }
    ensures { Puts (join ((kept_bits before).rows bits.now)) result out.old out.new }
{
    out.push_num(13, u64::from(before) + 13 + bits.len() as u64)?;
    out.push_slice(bits.slice())
}
