//! `Field`: one field of a row, as a part of the text.

ghost use Rattle.std.specs.Prelude.{◌≡◌, ◌==◌, IfOk, IfSome, length};
ghost use Rattle.etcs_rows.specs.Fields.{field_text};

use crate::quotes::push_single;
use std::alloc::{AllocError, Global};
use std::marker::Model;

/// One field of a row. Contracts see its text, without the quotes around it, and with one quote for two.
#[derive(Drop)]
pub struct Field<'a> {
    raw: &'a [u8],
    has_quotes: bool,
}

impl<'a> Model for Field<'a> {
    ghost use Rattle.std.specs.Prelude.{ℕ, List};
    ghost use Rattle.etcs_rows.specs.Fields.{field_text};

    ghost Value = { List ℕ };

    ghost view = { λ f. field_text f.has_quotes f.raw.now };
}

impl<'a> Field<'a> {
    // The field with these bytes between its delimiters or quotes. `has_quotes`: there are doubled quotes among them.
    pub(crate) fn new(raw: &'a [u8], has_quotes: bool) -> Field<'a>
        ensures { result ≡ field_text has_quotes raw.now }
    {
        Field { raw, has_quotes }
    }

    /// Whether the field has no text.
    pub fn is_empty(&self) -> bool
        ensures { result ≡ (length self.now == 0) }
    {
        self.raw.is_empty()
    }

    /// The text of the field, if it can be lent: `None` if the field has doubled quotes. Then [`Field::text`] copies it.
    pub fn lent(&self) -> Option<&'a [u8]>
        ensures { IfSome result (λ text. text.now ≡ self.now) }
    {
        if self.has_quotes {
            None
        } else {
            Some(self.raw)
        }
    }

    /// A copy of the text of the field. Fails only if memory runs out.
    pub fn text(&self, alloc: Global) -> Result<Vec<u8>, AllocError>
        ensures { IfOk result (λ text. text.items ≡ self.now) }
    {
        let mut text = Vec::new(alloc);
        if self.has_quotes {
            push_single(&mut text, self.raw)?;
        } else {
            text.extend_from_slice(self.raw)?;
        }
        Ok(text)
    }
}
