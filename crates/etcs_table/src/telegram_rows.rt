//! `read_telegram_rows`: the rows of a table that have a telegram.

ghost use Rattle.std.specs.Prelude.{◌≡◌, IfErr, IfOk, Ok};
ghost use Rattle.std.specs.Str.{is_utf8};
ghost use Rattle.etcs_table.specs.Entries.{entries_below, entries_of};
ghost use Rattle.etcs_table.specs.Faults.{FailsAs, unread_row};

use crate::columns::Columns;
use crate::error::{TableError, TableFault};
use crate::heading_search::{delimiter_of, find_heading};
use crate::headings::Headings;
use crate::mark::without_mark;
use crate::telegram_row::{TelegramRow, has_text, read_row};
use etcs_rows::{RowError, RowReader};
use std::alloc::Global;
use std::str;

// Whether a text is UTF-8.
fn is_utf8(text: &[u8]) -> bool
    ensures { result ≡ is_utf8 text.now }
{
    match str::from_utf8(text) {
        Ok(_) => true,
        Err(_) => false,
    }
}

// Why a row was not read: memory ran out, or it has a wrong quote.
fn unread_row(error: RowError) -> TableError
    ensures { result ≡ unread_row error }
{
    match error {
        RowError::Memory => TableError::Memory,
        RowError::Quote(wrong) => TableError::Fault(TableFault::Quote(wrong)),
    }
}

// The rows below the headings that have a telegram.
fn read_rows<'a>(
    alloc: Global,
    columns: &Columns,
    reader: &mut RowReader<'a>,
) -> Result<Vec<TelegramRow<'a>>, TableError>
    ensures ok { IfOk result (λ rows. entries_below columns.now reader.old.wrong reader.old.rows ≡ Ok rows.items) }
    ensures err { IfErr result (λ error. FailsAs (entries_below columns.now reader.old.wrong reader.old.rows) error) }
{
    let mut fields = Vec::new(alloc);
    let mut rows = Vec::new(alloc);
    'rows: loop {
        let read = match reader.next_row(&mut fields) {
            Ok(read) => read,
            Err(error) => return Err(unread_row(error)),
        };
        let Some(number) = read else {
            if rows.as_slice().is_empty() {
                return Err(TableError::Fault(TableFault::Empty));
            }
            return Ok(rows);
        };
        if has_text(fields.as_slice()) {
            match read_row(alloc, columns, number, fields.as_slice()) {
                Ok(row) => rows.push(row)?,
                Err(error) => return Err(error),
            }
        }
    }
}

/// Reads the rows of a table that have a telegram. Each is a row below the headings, and no row below them has text and
/// no telegram. Fails with the first fault of the table, or if memory runs out.
pub fn read_telegram_rows<'a>(
    alloc: Global,
    words: &Headings<'_>,
    bytes: &'a [u8],
) -> Result<Vec<TelegramRow<'a>>, TableError>
    ensures ok { IfOk result (λ rows. entries_of words.now bytes.now ≡ Ok rows.items) }
    ensures err { IfErr result (λ error. FailsAs (entries_of words.now bytes.now) error) }
{
    if !is_utf8(bytes) {
        return Err(TableError::Fault(TableFault::NotUtf8));
    }
    let text = without_mark(bytes);
    let delimiter = match delimiter_of(alloc, words, text) {
        Ok(delimiter) => delimiter,
        Err(error) => return Err(error),
    };
    let mut reader = RowReader::new(delimiter, text);
    match find_heading(alloc, words, &mut reader) {
        Ok(columns) => read_rows(alloc, &columns, &mut reader),
        Err(error) => Err(error),
    }
}
