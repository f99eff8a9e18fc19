//! `read_whole`: reads an input to its end.

ghost use Rattle.std.specs.Prelude.{◌≡◌, ◌<◌, true, length, vec_items, IfOk};
ghost use Rattle.etcs_run.specs.Counted.{CanCount, read_budget, wrapped};
ghost use Rattle.etcs_run.specs.LineReading.{CountsDevice};
ghost use Rattle.etcs_run.specs.WholeInput.{ReadsMore, ReadsAllInput};

use crate::counted::Counted;
use crate::error::RunError;
use crate::text_lines::new_block;
use std::alloc::Global;
use std::io::Read;

// Appends the result of one read. Returns whether it gave any bytes; if not, the end was reached.
fn read_more<R: Read>(
    block: &mut [u8],
    input: &mut Vec<u8>,
    reader: &mut Counted<R>,
) -> Result<bool, RunError>
    requires room { 0 < length block.old }
    requires reads { CanCount reader.old }
    ensures read { ReadsMore (R.remaining (wrapped reader.old)) (R.remaining (wrapped reader.new))
        input.old.items input.new.items result }
    ensures counts { CountsDevice result reader.old reader.new }

    // Each read that gives bytes lowers the budget.
    ensures lowers_budget { IfOk result (λ more. more ≡ true → read_budget reader.new < read_budget reader.old) }
{
    let count = reader.read(block)?;
    match input.extend_from_slice(&block[..count]) {
        Ok(()) => Ok(0 < count),
        Err(_) => Err(RunError::Memory),
    }
}

/// Reads to the end of the input, and returns all its bytes.
///
/// `Memory`: the input does not fit in memory. `Device`: a read failed, and the reader's count of
/// failures has risen by 1. In both cases the bytes that were read are gone from the reader, and none
/// of them is returned.
pub fn read_whole<R: Read>(alloc: Global, reader: &mut Counted<R>) -> Result<Vec<u8>, RunError>
    requires { CanCount reader.old }
    ensures read { ReadsAllInput vec_items (R.remaining (wrapped reader.old))
        (R.remaining (wrapped reader.new)) result }
    ensures counts { CountsDevice result reader.old reader.new }
{
    let mut block = new_block(alloc)?;
    let mut input = Vec::new(alloc);
    'reading: while read_more(block.as_mut_slice(), &mut input, reader)? {}
    Ok(input)
}
