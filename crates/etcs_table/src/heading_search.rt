//! Where the headings of a table are, and which delimiter it has.

ghost use Rattle.std.specs.Prelude.{◌≡◌, ◌∷◌, [], Err, IfErr, IfOk, List, None, Option, Some};
ghost use Rattle.etcs_rows.specs.Rows.{Row};
ghost use Rattle.etcs_rows.specs.declared.error.WrongQuote.{WrongQuote};
ghost use Rattle.etcs_table.specs.Entries.{entries_below, entries_next, entries_of_rows, entries_of_sheet, entries_of_text};
ghost use Rattle.etcs_table.specs.Faults.{FailsAs, unfound_heading};
ghost use Rattle.etcs_table.specs.Heading.{delimiters_of, gives_heading};

use crate::cell::{Cell, cells_of};
use crate::columns::{Columns, columns_of, has_telegram, heading_fault, is_heading};
use crate::error::{TableError, TableFault};
use crate::headings::Headings;
use etcs_rows::{Delimiter, RowError, RowReader};
use std::alloc::{AllocError, Global};

// How many rows may stand above the headings, and the heading row.
const HEADING_ROWS: usize = 20;

// The columns of a row, if it is the heading row. It is no fault if another row has no telegram.
fn heading_in(
    words: &Headings<'_>,
    number: usize,
    cells: &[Cell<'_>],
) -> Result<Option<Columns>, TableFault>
    ensures ok { IfOk result (λ found. (wrong : Option WrongQuote) (rows : List Row)
        → entries_of_rows words.now wrong (record { number = number; fields = cells.now } ∷ rows) ≡ entries_next found words.now wrong rows) }
    ensures err { IfErr result (λ fault. (wrong : Option WrongQuote) (rows : List Row)
        → entries_of_rows words.now wrong (record { number = number; fields = cells.now } ∷ rows) ≡ Err fault) }
{
    if is_heading(words, cells) {
        match heading_fault(words, number, cells) {
            Some(fault) => Err(fault),
            None => Ok(Some(columns_of(words, cells))),
        }
    } else if has_telegram(cells) {
        Err(TableFault::Above(number))
    } else {
        Ok(None)
    }
}

// Why no heading row was found: memory ran out, or the rows end with a wrong quote.
fn end_of_rows(error: RowError) -> TableError
    ensures { result ≡ unfound_heading error }
{
    match error {
        RowError::Memory => TableError::Memory,
        RowError::Quote(_) => TableError::Fault(TableFault::NoHeading),
    }
}

/// Reads up to the heading row, and returns its columns.
pub(crate) fn find_heading<'a>(
    alloc: Global,
    words: &Headings<'_>,
    reader: &mut RowReader<'a>,
) -> Result<Columns, TableError>
    ensures ok { IfOk result (λ columns. entries_of_sheet words.now reader.old ≡ entries_below columns reader.new.wrong reader.new.rows) }
    ensures err { IfErr result (λ error. FailsAs (entries_of_sheet words.now reader.old) error) }
{
    let mut fields = Vec::new(alloc);
    'rows: loop {
        let read = match reader.next_row(&mut fields) {
            Ok(read) => read,
            Err(error) => return Err(end_of_rows(error)),
        };
        let Some(number) = read else {
            return Err(TableError::Fault(TableFault::NoHeading));
        };
        let cells = cells_of(alloc, fields.as_slice())?;
        match heading_in(words, number, cells.as_slice()) {
            Ok(Some(columns)) => return Ok(columns),
            Ok(None) => {}
            Err(fault) => return Err(TableError::Fault(fault)),
        }
    }
}

// Whether this delimiter gives a heading row.
fn gives_heading(
    alloc: Global,
    words: &Headings<'_>,
    text: &[u8],
    delimiter: Delimiter,
) -> Result<bool, AllocError>
    ensures { IfOk result (λ gives. gives ≡ gives_heading words.now text.now delimiter) }
{
    let mut reader = RowReader::new(delimiter, text);
    let mut fields = Vec::new(alloc);
    let mut left = HEADING_ROWS;
    'rows: while left > 0 {
        let read = match reader.next_row(&mut fields) {
            Ok(read) => read,
            Err(error) => {
                return match error {
                    RowError::Memory => Err(AllocError),
                    RowError::Quote(_) => Ok(false),
                };
            }
        };
        let Some(_number) = read else {
            return Ok(false);
        };
        let cells = cells_of(alloc, fields.as_slice())?;
        if is_heading(words, cells.as_slice()) {
            return Ok(true);
        }
        left -= 1;
    }
    Ok(false)
}

/// The delimiter that gives a heading row, if only one does.
pub(crate) fn delimiter_of(
    alloc: Global,
    words: &Headings<'_>,
    text: &[u8],
) -> Result<Delimiter, TableError>
    ensures ok { IfOk result (λ delimiter. delimiters_of words.now text.now ≡ delimiter ∷ []) }
    ensures err { IfErr result (λ error. FailsAs (entries_of_text words.now text.now) error) }
{
    let comma = gives_heading(alloc, words, text, Delimiter::Comma)?;
    let semicolon = gives_heading(alloc, words, text, Delimiter::Semicolon)?;
    let tab = gives_heading(alloc, words, text, Delimiter::Tab)?;
    match (comma, semicolon, tab) {
        (true, false, false) => Ok(Delimiter::Comma),
        (false, true, false) => Ok(Delimiter::Semicolon),
        (false, false, true) => Ok(Delimiter::Tab),
        (false, false, false) => Err(TableError::Fault(TableFault::NoHeading)),
        _ => Err(TableError::Fault(TableFault::TwoDelimiters)),
    }
}
