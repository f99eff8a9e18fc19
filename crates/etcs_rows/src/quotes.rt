//! Fields in quotes: where they end, and how two quotes become one.

ghost use Rattle.std.specs.Prelude.{◌≡◌, ◌≢◌, ◌+◌, ◌<◌, ◌++◌, IfOk, IfSome, IsNone, length, drop, slice_index, take};
ghost use Rattle.etcs_rows.specs.Fields.{EndsQuoted, IsOpen, field_text, single};

use memchr::memchr;
use std::alloc::AllocError;

const QUOTE: u8 = b'"';

// The length of the text up to the quote that ends the field, and whether doubled quotes are in it. The text is after
// the opening quote. `None` if no quote ends the field.
pub(crate) fn quoted_len(text: &[u8]) -> Option<(usize, bool)>
    ensures within { IfSome result (λ r. r.0 < length text.now) }
    ensures ends { IfSome result (λ r.
        EndsQuoted text.now (field_text r.1 (take r.0 text.now)) (drop (r.0 + 1) text.now)) }
    ensures closed { IfSome result (λ r. slice_index text.now (r.0 + 1) ≢ 34) }
    ensures open { IsNone result → IsOpen text.now }
{
    let mut at = 0;
    let mut has_quotes = false;
    'pairs: loop {
        let (_, rest) = text.split_at(at);
        let Some(len) = memchr(QUOTE, rest) else {
            return None;
        };
        let end = at + len;
        if end + 1 == text.len() || text[end + 1] != QUOTE {
            return Some((end, has_quotes));
        }
        at = end + 2;
        has_quotes = true;
    }
}

// Appends a text with one quote for two.
pub(crate) fn push_single(out: &mut Vec<u8>, raw: &[u8]) -> Result<(), AllocError>
    ensures { IfOk result (λ _. out.new.items ≡ out.old.items ++ single raw.now) }
{
    let mut is_first = false;
    for byte in raw {
        if is_first {
            is_first = false;
        } else {
            out.push(*byte)?;
            is_first = *byte == QUOTE;
        }
    }
    Ok(())
}
