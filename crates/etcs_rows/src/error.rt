//! `RowError`: why a text has no further row.

ghost use Rattle.std.specs.Prelude.{◌≡◌};
ghost use Rattle.etcs_rows.specs.declared.error.RowError.TheVariants as errors;

use std::alloc::AllocFailed;
use thiserror::Error;

/// What is wrong with a quote.
#[derive(Clone, Copy, Debug, PartialEq, Eq, Error)]
pub enum QuoteFault {
    /// It is in a field that does not begin with a quote.
    #[error("a quote in a field without quotes")]
    Inside,
    /// It ends a field, and text follows it.
    #[error("text after the quote that ends a field")]
    Text,
    /// It opens a field, and no quote ends the field.
    #[error("a quote that is not closed")]
    Open,
}

/// The row with a quote in a wrong place. Rows count from 1.
#[derive(Clone, Copy, Debug, PartialEq, Eq, Error)]
#[error("row {row}: {fault}")]
pub struct WrongQuote {
    /// The number of the row in a spreadsheet.
    pub row: usize,
    /// What is wrong with the quote.
    pub fault: QuoteFault,
}

/// Why a row could not be read.
#[derive(Clone, Copy, Debug, PartialEq, Eq, Error)]
pub enum RowError {
    /// Memory ran out. The row might have a wrong quote all the same.
    #[error("out of memory")]
    Memory,
    /// The row has a quote in a wrong place.
    #[error("{0}")]
    Quote(WrongQuote),
}

impl<T: Drop> From<AllocFailed<T>> for RowError {
    ghost from_gives = { λ _ error. error ≡ errors.Memory };

    fn from(_failed: AllocFailed<T>) -> RowError {
        RowError::Memory
    }
}
