//! `Columns`: where the columns of a table are.

ghost use Rattle.std.specs.Prelude.{◌≡◌, nat_lt, position};
ghost use Rattle.std.specs.List.{list_any, position_or_len};
ghost use Rattle.etcs_table.specs.Faults.{first_fault};
ghost use Rattle.etcs_table.specs.Heading.{columns_of, heading_checks, is_heading, occurrences, reads_as};
ghost use Rattle.etcs_table.specs.Text.{reads_as_telegram};

use crate::cell::Cell;
use crate::error::{Column, TableFault};
use crate::faults::first_fault;
use crate::headings::Headings;
use crate::text::{reads_as, reads_as_telegram};

/// Where the columns are, and how many fields the heading row has.
#[derive(Clone, Copy)]
pub(crate) struct Columns {
    /// The names of the groups.
    pub(crate) group: usize,
    /// The digits of the telegrams.
    pub(crate) telegram: usize,
    /// The names of the aspects, if there is such a column.
    pub(crate) aspect: Option<usize>,
    /// The numbers of the balises, if there is such a column.
    pub(crate) balise: Option<usize>,
    /// How many fields the heading row has.
    pub(crate) width: usize,
}

// How many fields of a row are this heading.
fn occurrences(word: &[u8], cells: &[Cell<'_>]) -> usize
    ensures { result ≡ occurrences word.now cells.now }
{
    cells
        .iter()
        .filter(|cell| reads_as(word, cell.as_slice()))
        .count()
}

// The first field of a row that is this heading, if there is one.
fn optional_column(word: &[u8], cells: &[Cell<'_>]) -> Option<usize>
    ensures { result ≡ position (reads_as word.now) cells.now }
{
    cells
        .iter()
        .position(|cell| reads_as(word, cell.as_slice()))
}

// The first field of a row that is this heading, or the number of fields if there is none.
fn column(word: &[u8], cells: &[Cell<'_>]) -> usize
    ensures { result ≡ position_or_len (reads_as word.now) cells.now }
{
    match optional_column(word, cells) {
        Some(column) => column,
        None => cells.len(),
    }
}

// Whether a row has a heading.
fn has(word: &[u8], cells: &[Cell<'_>]) -> bool
    ensures { result ≡ nat_lt 0 (occurrences word.now cells.now) }
{
    occurrences(word, cells) > 0
}

// Whether a row has a heading twice or more.
fn has_twice(word: &[u8], cells: &[Cell<'_>]) -> bool
    ensures { result ≡ nat_lt 1 (occurrences word.now cells.now) }
{
    occurrences(word, cells) > 1
}

/// Whether a row has the two headings that a table needs.
pub(crate) fn is_heading(words: &Headings<'_>, cells: &[Cell<'_>]) -> bool
    ensures { result ≡ is_heading words.now cells.now }
{
    has(words.group(), cells) && has(words.telegram(), cells)
}

/// Whether a row above the headings has a telegram.
pub(crate) fn has_telegram(cells: &[Cell<'_>]) -> bool
    ensures { result ≡ list_any reads_as_telegram cells.now }
{
    cells.iter().any(|cell| reads_as_telegram(cell.as_slice()))
}

/// What is wrong with the heading row: the heading that it has twice.
pub(crate) fn heading_fault(
    words: &Headings<'_>,
    number: usize,
    cells: &[Cell<'_>],
) -> Option<TableFault>
    ensures { result ≡ first_fault (heading_checks words.now (record { number = number; fields = cells.now })) }
{
    first_fault(&[
        (
            has_twice(words.group(), cells),
            TableFault::Twice(number, Column::Group),
        ),
        (
            has_twice(words.telegram(), cells),
            TableFault::Twice(number, Column::Telegram),
        ),
        (
            has_twice(words.aspect(), cells),
            TableFault::Twice(number, Column::Aspect),
        ),
        (
            has_twice(words.balise(), cells),
            TableFault::Twice(number, Column::Balise),
        ),
    ])
}

/// The columns of this heading row.
pub(crate) fn columns_of(words: &Headings<'_>, cells: &[Cell<'_>]) -> Columns
    ensures { result ≡ columns_of words.now cells.now }
{
    Columns {
        group: column(words.group(), cells),
        telegram: column(words.telegram(), cells),
        aspect: optional_column(words.aspect(), cells),
        balise: optional_column(words.balise(), cells),
        width: cells.len(),
    }
}
