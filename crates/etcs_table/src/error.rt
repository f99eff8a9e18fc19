//! `TableFault`: why a table stands for no groups. `TableError` adds that memory ran out.

ghost use Rattle.std.specs.Prelude.{◌≡◌};
ghost use Rattle.etcs_table.specs.declared.error.TableError.TheVariants as errors;

use etcs_rows::WrongQuote;
use std::alloc::{AllocError, AllocFailed};
use thiserror::Error;

/// A column that is read.
#[derive(Clone, Copy, Debug, PartialEq, Eq, Error)]
pub enum Column {
    /// The names of the groups.
    #[error("group")]
    Group,
    /// The digits of the telegrams.
    #[error("telegram")]
    Telegram,
    /// The names of the aspects.
    #[error("aspect")]
    Aspect,
    /// The numbers of the balises.
    #[error("balise")]
    Balise,
}

/// Why a table stands for no groups. The numbers are those of rows, from 1 on.
#[derive(Clone, Copy, Debug, PartialEq, Eq, Error)]
pub enum TableFault {
    /// The text is not UTF-8.
    #[error("not UTF-8")]
    NotUtf8,
    /// None of the first 20 rows has the headings.
    #[error("no heading row")]
    NoHeading,
    /// Two delimiters give a heading row.
    #[error("two delimiters give a heading row")]
    TwoDelimiters,
    /// A row above the headings has a telegram.
    #[error("row {0}: a telegram above the headings")]
    Above(usize),
    /// The heading row has a heading twice.
    #[error("row {0}: heading {1} twice")]
    Twice(usize, Column),
    /// A row has text, and none in this column.
    #[error("row {0}: no {1}")]
    Lacking(usize, Column),
    /// A row has text to the right of the headings.
    #[error("row {0}: text to the right of the headings")]
    TooWide(usize),
    /// The name in this column begins or ends with a blank.
    #[error("row {0}: a blank at an end of the {1}")]
    BlankEdge(usize, Column),
    /// A telegram has a character that is no hexadecimal digit and no blank.
    #[error("row {0}: the telegram is not hexadecimal")]
    NotHexadecimal(usize),
    /// The number of a balise is not one to four decimal digits.
    #[error("row {0}: the balise is not a number of up to four digits")]
    NotANumber(usize),
    /// A quote is in a wrong place.
    #[error("{0}")]
    Quote(WrongQuote),
    /// There is no telegram.
    #[error("no telegram")]
    Empty,
    /// A row has no aspect, and its group has several.
    #[error("row {0}: no aspect")]
    Unnamed(usize),
    /// A row has no number of a balise, and another row of its group has one.
    #[error("row {0}: no balise")]
    Unnumbered(usize),
    /// A row has the number of a balise that an earlier row of its aspect has.
    #[error("row {0}: balise twice")]
    Repeated(usize),
    /// A row is the ninth of its aspect.
    #[error("row {0}: ninth balise")]
    Ninth(usize),
    /// A row is the first of an aspect with another count of balises than the first aspect.
    #[error("row {0}: another count of balises than in the first aspect")]
    Uneven(usize),
    /// A row of every aspect is not at one place in all of them.
    #[error("row {0}: not at one place in all aspects")]
    Moved(usize),
}

/// Why a table has no groups to return.
#[derive(Clone, Copy, Debug, PartialEq, Eq, Error)]
pub enum TableError {
    /// Memory ran out. The table might have a fault all the same.
    #[error("out of memory")]
    Memory,
    /// The table has this fault.
    #[error("{0}")]
    Fault(TableFault),
}

impl<T: Drop> From<AllocFailed<T>> for TableError {
    ghost from_gives = { λ _ error. error ≡ errors.Memory };

    fn from(_failed: AllocFailed<T>) -> TableError {
        TableError::Memory
    }
}

impl From<AllocError> for TableError {
    ghost from_gives = { λ _ error. error ≡ errors.Memory };

    fn from(_failed: AllocError) -> TableError {
        TableError::Memory
    }
}
