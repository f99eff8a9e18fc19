//! `read_fields`: the fields of a row, one by one.

ghost use Rattle.std.specs.Prelude.{◌≡◌, ◌≢◌, ℕ, ◌+◌, ◌<◌, ◌≤◌, ◌∷◌, [], false, true, IfErr, IfOk, IfSome, IsNone, length, slice_index};
ghost use Rattle.etcs_rows.specs.Fields.{BeginsWithField, BeginsWrong, EndsField, GoesOn, IsAhead, Stops, is_stop, rows_in};
ghost use Rattle.etcs_rows.specs.Rows.{rows_from, with_row};

use crate::delimiter::Delimiter;
use crate::error::{QuoteFault, RowError, WrongQuote};
use crate::field::Field;
use crate::line_end::{after_line_end, begins_with_line_end};
use crate::quotes::quoted_len;

/// What a field ends.
#[derive(Clone, Copy, Drop)]
pub(crate) enum FieldEnd {
    /// Only itself: another field of the row follows.
    Field,
    /// Its row.
    Row,
}

// How the field in front of this text ends, and the text after that. `None` if the text goes on.
fn end_of_field(delimiter: u8, text: &[u8]) -> Option<(FieldEnd, &[u8])>
    requires not_quote { delimiter ≢ 34 }
    ensures ends { IfSome result (λ r. EndsField delimiter text.now r.0 r.1.now) }
    ensures ahead { IfSome result (λ r. IsAhead r.0 r.1.now text.now) }
    ensures goes_on { IsNone result → GoesOn delimiter text.now }
{
    if text.is_empty() {
        Some((FieldEnd::Row, text))
    } else if text[0] == delimiter {
        let (_, rest) = text.split_at(1);
        Some((FieldEnd::Field, rest))
    } else if begins_with_line_end(text) {
        Some((FieldEnd::Row, after_line_end(text)))
    } else {
        None
    }
}

// How many of the first bytes are part of a field without quotes.
fn plain_len(delimiter: u8, text: &[u8]) -> usize
    ensures within { result ≤ length text.now }
    ensures before { (k : ℕ) → k < result → is_stop delimiter (slice_index text.now k) ≡ false }
    ensures at { result < length text.now → is_stop delimiter (slice_index text.now result) ≡ true }
{
    for (i, byte) in text.iter().enumerate() {
        if *byte == delimiter || *byte == b'\r' || *byte == b'\n' || *byte == b'"' {
            return i;
        }
    }
    text.len()
}

// The field without quotes at the start of this text, how it ends, and the text after it.
fn plain_field(delimiter: u8, text: &[u8]) -> Result<(Field<'_>, FieldEnd, &[u8]), QuoteFault>
    requires not_quote { delimiter ≢ 34 }
    requires unquoted { slice_index text.now 0 ≢ 34 }
    ensures field { IfOk result (λ r. BeginsWithField delimiter text.now r.0 r.1 r.2.now) }
    ensures ahead { IfOk result (λ r. IsAhead r.1 r.2.now text.now) }
    ensures wrong { IfErr result (λ fault. BeginsWrong delimiter text.now fault) }
{
    let (raw, rest) = text.split_at(plain_len(delimiter, text));
    match end_of_field(delimiter, rest) {
        Some((end, after)) => Ok((Field::new(raw, false), end, after)),
        None => Err(QuoteFault::Inside),
    }
}

// The field in quotes whose text begins here, how it ends, and the text after it.
fn quoted_field(delimiter: u8, text: &[u8]) -> Result<(Field<'_>, FieldEnd, &[u8]), QuoteFault>
    requires not_quote { delimiter ≢ 34 }
    ensures field { IfOk result (λ r. BeginsWithField delimiter (34 ∷ text.now) r.0 r.1 r.2.now) }
    ensures ahead { IfOk result (λ r. length r.2.now ≤ length text.now) }
    ensures wrong { IfErr result (λ fault. BeginsWrong delimiter (34 ∷ text.now) fault) }
{
    let Some((len, has_quotes)) = quoted_len(text) else {
        return Err(QuoteFault::Open);
    };
    let (raw, _) = text.split_at(len);
    let (_, rest) = text.split_at(len + 1);
    match end_of_field(delimiter, rest) {
        Some((end, after)) => Ok((Field::new(raw, has_quotes), end, after)),
        None => Err(QuoteFault::Text),
    }
}

// The field at the start of this text, how it ends, and the text after it.
fn read_field(delimiter: u8, text: &[u8]) -> Result<(Field<'_>, FieldEnd, &[u8]), QuoteFault>
    requires not_quote { delimiter ≢ 34 }
    ensures field { IfOk result (λ r. BeginsWithField delimiter text.now r.0 r.1 r.2.now) }
    ensures ahead { IfOk result (λ r. IsAhead r.1 r.2.now text.now) }
    ensures wrong { IfErr result (λ fault. BeginsWrong delimiter text.now fault) }
{
    if text.is_empty() || text[0] != b'"' {
        return plain_field(delimiter, text);
    }
    let (_, begun) = text.split_at(1);
    quoted_field(delimiter, begun)
}

/// Reads the fields of the row at the start of this text into a list that is empty, and returns the text after the row.
pub(crate) fn read_fields<'a>(
    delimiter: u8,
    text: &'a [u8],
    row: usize,
    fields: &mut Vec<Field<'a>>,
) -> Result<&'a [u8], RowError>
    requires not_quote { delimiter ≢ 34 }
    requires empty { fields.old.items ≡ [] }
    ensures row { IfOk result (λ rest. rows_in delimiter row [] text.now
        ≡ with_row (record { number = row; fields = fields.new.items }) (rows_from delimiter (row + 1) rest.now)) }
    ensures ahead { IfOk result (λ rest. 0 < length text.now → length rest.now < length text.now) }
    ensures wrong { IfErr result (λ error. Stops error (rows_in delimiter row [] text.now)) }
{
    let mut rest = text;
    'fields: loop {
        let (field, end, after) = match read_field(delimiter, rest) {
            Ok(read) => read,
            Err(fault) => return Err(RowError::Quote(WrongQuote { row, fault })),
        };
        fields.push(field)?;
        rest = after;
        match end {
            FieldEnd::Field => {}
            FieldEnd::Row => return Ok(rest),
        }
    }
}
