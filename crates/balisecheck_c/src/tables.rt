//! The check of a table: what `balisecheck_table` writes for it, and its status, or only the length of the text.

ghost use Rattle.std.specs.Prelude.{◌≡◌, IfSome};
ghost use Rattle.etcs_table.specs.Heading.{usual_words};
ghost use Rattle.etcs_table_run.specs.TableOutput.{table_output};
ghost use Rattle.balisecheck_c.specs.Answer.{IsAnswer, IsLength};

use crate::commands::{answer, length_of};
use etcs_run::Status;
use etcs_table::Headings;
use etcs_table_run::answer_table;
use std::alloc::Global;

// The text and the status for a table, unless memory runs out.
fn output_of(alloc: Global, table: &[u8]) -> Option<(Vec<u8>, Status)>
    ensures { IfSome result (λ o. table_output usual_words table.now ≡ (o.0.items, o.1)) }
{
    match answer_table(alloc, &Headings::usual(), table) {
        Ok((text, status)) => {
            let mut bytes = Vec::new(alloc);
            match bytes.extend_from_slice(text.as_bytes()) {
                Ok(()) => Some((bytes, status)),
                Err(_) => None,
            }
        }
        Err(_) => None,
    }
}

/// `balisecheck_table`: from the bytes of a table to the findings about its line, with their rows.
#[unsafe(no_mangle)]
pub extern "C" fn balisecheck_check_table(
    alloc: Global,
    input: &[u8],
    buffer: &mut [u8],
    length: &mut usize,
) -> u32
    ensures { IsAnswer (table_output usual_words input.now) buffer.old buffer.new length.new result }
{
    answer(output_of(alloc, input), buffer, length)
}

/// The length of the text that `balisecheck_table` writes for this table, and its status.
#[unsafe(no_mangle)]
pub extern "C" fn balisecheck_check_table_length(
    alloc: Global,
    input: &[u8],
    length: &mut usize,
) -> u32
    ensures { IsLength (table_output usual_words input.now) length.new result }
{
    length_of(output_of(alloc, input), length)
}
