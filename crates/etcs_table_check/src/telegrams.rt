//! The telegrams of rows, in the order of the table.

ghost use Rattle.std.specs.Prelude.{◌≡◌, IfErr, IfOk, None, Some};
ghost use Rattle.etcs_table_check.specs.Line.{first_refusal, telegram_entries, telegram_of};
ghost use Rattle.etcs_table_check.specs.Refusals.{Gives, IsFirst, unread_table};

use crate::error::{CheckTableError, TableRefusal};
use etcs_table::{Headings, TableError, TelegramRow, read_telegram_rows};
use etcs_telegram::{Telegram, TextError, from_hex};
use std::alloc::Global;

/// The telegram that the digits of a row are.
#[tactic(auto, unfolding(crate::specs::Line::telegram_of))]
pub(crate) fn telegram_of(alloc: Global, row: &TelegramRow<'_>) -> Result<Telegram, CheckTableError>
    ensures { Gives (λ t. t) result (telegram_of row.now) }
{
    match from_hex(alloc, row.digits()) {
        Ok(telegram) => Ok(telegram),
        Err(TextError::Memory) => Err(CheckTableError::Memory),
        Err(why) => Err(CheckTableError::Refused(TableRefusal::Telegram(row.row(), why))),
    }
}

// Reads the telegram of each row, up to the first row whose digits are none.
fn check_rows(alloc: Global, rows: &[TelegramRow<'_>]) -> Result<(), CheckTableError>
    ensures ok { IfOk result (λ _. first_refusal rows.now ≡ None) }
    ensures err { IfErr result (λ error. IsFirst (first_refusal rows.now) error) }
{
    'rows: for row in rows {
        match telegram_of(alloc, row) {
            Ok(_) => {}
            Err(error) => return Err(error),
        }
    }
    Ok(())
}

/// Why no rows were read: memory ran out, or the table has a fault.
pub(crate) fn unread_table(error: TableError) -> CheckTableError
    ensures { result ≡ unread_table error }
{
    match error {
        TableError::Memory => CheckTableError::Memory,
        TableError::Fault(fault) => CheckTableError::Refused(TableRefusal::Table(fault)),
    }
}

/// The rows of a table that have a telegram. The digits of each are a telegram.
pub(crate) fn telegram_rows<'a>(
    alloc: Global,
    words: &Headings<'_>,
    bytes: &'a [u8],
) -> Result<Vec<TelegramRow<'a>>, CheckTableError>
    ensures { Gives (λ rows. rows.items) result (telegram_entries words.now bytes.now) }
{
    let rows = match read_telegram_rows(alloc, words, bytes) {
        Ok(rows) => rows,
        Err(error) => return Err(unread_table(error)),
    };
    match check_rows(alloc, rows.as_slice()) {
        Ok(()) => Ok(rows),
        Err(error) => Err(error),
    }
}
