//! `RowReader`: the rows of a text, one by one.

ghost use Rattle.std.specs.Prelude.{◌≡◌, ℕ, ◌+◌, ◌≤◌, false, IfErr, IfOk, length};
ghost use Rattle.etcs_rows.specs.Fields.{Stops};
ghost use Rattle.etcs_rows.specs.LineEnd.{begins_with_line_end};
ghost use Rattle.etcs_rows.specs.Machine.{delimiter_byte};
ghost use Rattle.etcs_rows.specs.Rows.{rows_from, rows_of};
ghost use Rattle.etcs_rows.specs.Reader.{IsRead};

use crate::delimiter::Delimiter;
use crate::error::RowError;
use crate::field::Field;
use crate::fields::read_fields;
use crate::line_end::{after_line_end, begins_with_line_end};
use std::marker::Model;

/// A reader of rows. Contracts see the rows that are left, and the wrong quote at which they end, if there is one.
#[derive(Drop)]
pub struct RowReader<'a> {
    delimiter: u8,
    rest: &'a [u8],
    number: usize,
}

impl<'a> Model for RowReader<'a> {
    ghost use Rattle.std.specs.Prelude.{◌≢◌, ◌+◌, ◌<◌, ◌^◌, length};
    ghost use Rattle.etcs_rows.specs.Rows.{Sheet, rows_from};

    ghost Value = { Sheet };

    ghost view = { λ r. rows_from r.delimiter r.number r.rest.now };

    ghost invariant = { λ r. (r.delimiter ≢ 34) × (r.number + length r.rest.now < 2 ^ 64) };
}

// The text after blank rows, and how many they are.
fn pass_blank_rows(text: &[u8]) -> (usize, &[u8])
    ensures rows { (delimiter number : ℕ)
        → rows_from delimiter number text.now ≡ rows_from delimiter (number + result.0) result.1.now }
    ensures within { result.0 + length result.1.now ≤ length text.now }
    ensures begins { begins_with_line_end result.1.now ≡ false }
{
    let mut count = 0;
    let mut rest = text;
    'blank: while begins_with_line_end(rest) {
        rest = after_line_end(rest);
        count += 1;
    }
    (count, rest)
}

impl<'a> RowReader<'a> {
    /// A reader of the rows of this text. A byte order mark is part of the first field.
    pub fn new(delimiter: Delimiter, text: &'a [u8]) -> RowReader<'a>
        ensures { result ≡ rows_of (delimiter_byte delimiter) text.now }
    {
        RowReader {
            delimiter: delimiter.byte(),
            rest: text,
            number: 1,
        }
    }

    /// Reads the next row that is not blank into `fields`, in place of what is there, and returns its number: a
    /// spreadsheet's, from 1 on. Blank rows count. `None`: there are no more rows.
    ///
    /// Fails if the row has a wrong quote, or if memory runs out. Then the reader stays at this row, and the fields
    /// are some of those of the row.
    pub fn next_row(&mut self, fields: &mut Vec<Field<'a>>) -> Result<Option<usize>, RowError>
        ensures read { IfOk result (λ read. IsRead read self.old fields.new.items self.new) }
        ensures wrong { IfErr result (λ error. Stops error self.old) }
        ensures err { IfErr result (λ _. self.new ≡ self.old) }
    {
        fields.clear();
        let (blank, text) = pass_blank_rows(self.rest);
        if text.is_empty() {
            return Ok(None);
        }
        let number = self.number + blank;
        let rest = match read_fields(self.delimiter, text, number, fields) {
            Ok(rest) => rest,
            Err(error) => return Err(error),
        };
        self.rest = rest;
        self.number = number + 1;
        Ok(Some(number))
    }
}
