//! The rows of a table of separated values (CSV), with the numbers that a spreadsheet gives them.
//!
//! [`RowReader`] reads a text row by row. It copies nothing: a [`Field`] is a part of the text, from which doubled
//! quotes are removed only if somebody asks for its text. A quote in a wrong place is an error with its row, so no row
//! can vanish into a field. Read `specs/Machine.antt` and `specs/Rows.antt` first, which define the rows of a text, and
//! then `row_reader.rt`. Which rows are headings and which are telegrams is not decided here.
#![tactic(auto)]

mod delimiter;
mod error;
mod field;
mod fields;
mod line_end;
mod quotes;
mod row_reader;

pub use delimiter::Delimiter;
pub use error::{QuoteFault, RowError, WrongQuote};
pub use field::Field;
pub use row_reader::RowReader;
