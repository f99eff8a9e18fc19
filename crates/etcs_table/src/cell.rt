//! `Cell`: the text of a field.

ghost use Rattle.std.specs.Prelude.{◌≡◌, [], IfOk};
ghost use Rattle.etcs_table.specs.Text.{digits_of};

use crate::text::{has_blank, is_blank};
use etcs_rows::Field;
use std::alloc::{AllocError, Global};
use std::borrow::CowSlice;
use std::marker::Model;

/// The text of a field: a part of the table, or a copy if the field has doubled quotes.
#[derive(Drop)]
pub(crate) struct Cell<'a> {
    text: CowSlice<'a, u8>,
}

impl<'a> Model for Cell<'a> {
    ghost use Rattle.std.specs.Prelude.{ℕ, List};
    ghost use Rattle.std.specs.Cow.{cow_slice_items};

    ghost Value = { List ℕ };

    ghost view = { λ c. cow_slice_items c.text };
}

impl<'a> Cell<'a> {
    /// A cell without text.
    pub(crate) fn empty() -> Cell<'a>
        ensures { result ≡ [] }
    {
        Cell::lent(b"")
    }

    // The cell with this text, which is lent.
    fn lent(text: &'a [u8]) -> Cell<'a>
        ensures { result ≡ text.now }
    {
        Cell {
            text: CowSlice::Borrowed(text),
        }
    }

    // The cell with this text, which is its own.
    fn owned(text: Vec<u8>) -> Cell<'a>
        ensures { result ≡ text.items }
    {
        Cell {
            text: CowSlice::Owned(text),
        }
    }

    /// The text of a field. Fails only if memory runs out, which happens only if the field has doubled quotes.
    pub(crate) fn of_field(alloc: Global, field: &Field<'a>) -> Result<Cell<'a>, AllocError>
        ensures { IfOk result (λ cell. cell ≡ field.now) }
    {
        match field.lent() {
            Some(text) => Ok(Cell::lent(text)),
            None => Ok(Cell::owned(field.text(alloc)?)),
        }
    }

    /// The text itself.
    pub(crate) fn as_slice(&self) -> &[u8]
        ensures { result.now ≡ self.now }
    {
        self.text.as_slice()
    }

    /// The text without blanks. Fails only if memory runs out, which happens only if there are blanks.
    pub(crate) fn without_blanks(self, alloc: Global) -> Result<Cell<'a>, AllocError>
        ensures { IfOk result (λ cell. cell ≡ digits_of self.entry) }
    {
        if has_blank(self.as_slice()) {
            let kept = self
                .as_slice()
                .iter()
                .copied()
                .filter(|c| !is_blank(*c))
                .collect(alloc)?;
            Ok(Cell::owned(kept))
        } else {
            Ok(self)
        }
    }
}

/// The texts of the fields of a row. Fails only if memory runs out.
pub(crate) fn cells_of<'a>(alloc: Global, fields: &[Field<'a>]) -> Result<Vec<Cell<'a>>, AllocError>
    ensures { IfOk result (λ cells. cells.items ≡ fields.now) }
{
    let mut cells = Vec::new(alloc);
    for field in fields {
        cells.push(Cell::of_field(alloc, field)?)?;
    }
    Ok(cells)
}
