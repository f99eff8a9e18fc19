//! `put`: a text in the caller's buffer. `count`: only its length. `out_of_memory`: no text.

ghost use Rattle.std.specs.Prelude.{◌≡◌};
ghost use Rattle.balisecheck_c.specs.Answer.{IsCounted, IsPut, memory_status};

use etcs_run::Status;

/// Puts the text at the front of the buffer, and returns the exit status of the program for this status. If
/// the buffer is too small, it is unchanged, and 4 is returned. `length` becomes the length of the text.
pub fn put(text: &[u8], status: Status, buffer: &mut [u8], length: &mut usize) -> u32
    ensures put { IsPut (text.now, status) buffer.old buffer.new length.new result }
    ensures other { result ≡ memory_status → ⊥ }
{
    let count = text.len();
    *length = count;
    if count > buffer.len() {
        return 4;
    }
    buffer[..count].copy_from_slice(text);
    u32::from(status.code())
}

/// Returns the exit status of the program for this status. `length` becomes the length of the text.
pub fn count(text: &[u8], status: Status, length: &mut usize) -> u32
    ensures counted { IsCounted (text.now, status) length.new result }
    ensures other { result ≡ memory_status → ⊥ }
{
    *length = text.len();
    u32::from(status.code())
}

/// Reports that there is no text, because memory ran out.
pub fn out_of_memory(length: &mut usize) -> u32
    ensures status { result ≡ memory_status }
    ensures empty { length.new ≡ 0 }
{
    *length = 0;
    3
}
