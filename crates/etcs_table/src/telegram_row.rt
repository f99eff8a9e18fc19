//! `TelegramRow`: a row of a table that has a telegram.

ghost use Rattle.std.specs.Prelude.{◌≡◌, IfErr, IfOk, None, drop};
ghost use Rattle.etcs_table.specs.Entries.{entry_of, field_of, has_text, optional_field, row_checks, text_checks};
ghost use Rattle.etcs_table.specs.Faults.{IsFoundAs, first_fault};

use crate::cell::Cell;
use crate::columns::Columns;
use crate::error::{Column, TableError, TableFault};
use crate::faults::first_fault;
use crate::text::{has_decimals_only, has_digits_only, has_edge, number_of};
use etcs_rows::Field;
use std::alloc::{AllocError, Global};
use std::marker::Model;

/// A row of a table that has a telegram.
#[derive(Drop)]
pub struct TelegramRow<'a> {
    row: usize,
    group: Cell<'a>,
    aspect: Cell<'a>,
    number: Option<u32>,
    digits: Cell<'a>,
}

impl<'a> Model for TelegramRow<'a> {
    ghost use Rattle.etcs_table.specs.Entries.{Entry};

    ghost Value = { Entry };

    ghost view = { λ e. record { row = e.row; group = e.group; aspect = e.aspect; number = e.number; digits = e.digits } };
}

impl<'a> TelegramRow<'a> {
    /// The number of the row in a spreadsheet, from 1 on.
    pub fn row(&self) -> usize
        ensures { result ≡ self.now.row }
    {
        self.row
    }

    /// The name of the group.
    pub fn group(&self) -> &[u8]
        ensures { result.now ≡ self.now.group }
    {
        self.group.as_slice()
    }

    /// The name of the aspect, `*` for every aspect, or empty.
    pub fn aspect(&self) -> &[u8]
        ensures { result.now ≡ self.now.aspect }
    {
        self.aspect.as_slice()
    }

    /// The number of the balise, if the row has one.
    pub fn number(&self) -> Option<u32>
        ensures { result ≡ self.now.number }
    {
        self.number
    }

    /// The hexadecimal digits of the telegram.
    pub fn digits(&self) -> &[u8]
        ensures { result.now ≡ self.now.digits }
    {
        self.digits.as_slice()
    }
}

/// Whether a row has text.
pub(crate) fn has_text(fields: &[Field<'_>]) -> bool
    ensures { result ≡ has_text fields.now }
{
    fields.iter().any(|field| !field.is_empty())
}

// Whether a row has text behind its first fields, which are as many as the heading row has.
fn is_wide(width: usize, fields: &[Field<'_>]) -> bool
    ensures { result ≡ has_text (drop width fields.now) }
{
    if fields.len() <= width {
        return false;
    }
    let (_, rest) = fields.split_at(width);
    has_text(rest)
}

// The text in this column: none if the row has no such field.
fn cell_at<'a>(alloc: Global, fields: &[Field<'a>], column: usize) -> Result<Cell<'a>, AllocError>
    ensures { IfOk result (λ cell. cell ≡ field_of fields.now column) }
{
    if column < fields.len() {
        Cell::of_field(alloc, &fields[column])
    } else {
        Ok(Cell::empty())
    }
}

// The text in this column, if the table has the column.
fn optional_cell<'a>(
    alloc: Global,
    fields: &[Field<'a>],
    column: Option<usize>,
) -> Result<Cell<'a>, AllocError>
    ensures { IfOk result (λ cell. cell ≡ optional_field fields.now column) }
{
    match column {
        Some(column) => cell_at(alloc, fields, column),
        None => Ok(Cell::empty()),
    }
}

// What is wrong with a row that has these texts in its columns.
fn text_fault(
    row: usize,
    group: &[u8],
    telegram: &[u8],
    aspect: &[u8],
    balise: &[u8],
    is_wide: bool,
) -> Option<TableFault>
    ensures { result ≡ first_fault (text_checks row group.now telegram.now aspect.now balise.now is_wide) }
{
    first_fault(&[
        (group.is_empty(), TableFault::Lacking(row, Column::Group)),
        (
            telegram.is_empty(),
            TableFault::Lacking(row, Column::Telegram),
        ),
        (is_wide, TableFault::TooWide(row)),
        (has_edge(group), TableFault::BlankEdge(row, Column::Group)),
        (has_edge(aspect), TableFault::BlankEdge(row, Column::Aspect)),
        (!has_digits_only(telegram), TableFault::NotHexadecimal(row)),
        (!has_decimals_only(balise), TableFault::NotANumber(row)),
        (balise.len() > 4, TableFault::NotANumber(row)),
    ])
}

/// Reads a row with text: its telegram, or what is wrong with it.
pub(crate) fn read_row<'a>(
    alloc: Global,
    columns: &Columns,
    number: usize,
    fields: &[Field<'a>],
) -> Result<TelegramRow<'a>, TableError>
    ensures ok { IfOk result (λ read. read ≡ entry_of columns.now (record { number = number; fields = fields.now })) }
    ensures sound { IfOk result (λ _. first_fault (row_checks columns.now (record { number = number; fields = fields.now })) ≡ None) }
    ensures err { IfErr result (λ error. IsFoundAs (first_fault (row_checks columns.now (record { number = number; fields = fields.now }))) error) }
{
    let group = cell_at(alloc, fields, columns.group)?;
    let telegram = cell_at(alloc, fields, columns.telegram)?;
    let aspect = optional_cell(alloc, fields, columns.aspect)?;
    let balise = optional_cell(alloc, fields, columns.balise)?;
    let found = text_fault(
        number,
        group.as_slice(),
        telegram.as_slice(),
        aspect.as_slice(),
        balise.as_slice(),
        is_wide(columns.width, fields),
    );
    match found {
        Some(fault) => Err(TableError::Fault(fault)),
        None => Ok(TelegramRow {
            row: number,
            group,
            aspect,
            number: number_of(balise.as_slice()),
            digits: telegram.without_blanks(alloc)?,
        }),
    }
}
