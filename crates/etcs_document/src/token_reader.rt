//! Fast path: `TokenReader` reads the tokens of a document one by one from its bytes, as `json` gives them. Strings
//! without escapes only. `false` or `None` is inconclusive; the caller then uses the full reader.

ghost use Rattle.std.specs.Prelude.{◌≡◌, ◌+◌, ◌∷◌, [], false, None, Some, IfSome, IsFalse, IsTrue};
ghost use Rattle.json.specs.Json.{after_end_array, read_key};
ghost use Rattle.json.specs.Lex.{after_value, begins_colon, between, colon, lex, punctuate, token, tokens};
ghost use Rattle.json.specs.Token.{begin_array, begin_object, string as string_token};
ghost use Rattle.json.specs.Word.{is_space};
ghost use Rattle.etcs_document.specs.TokenReader.{ArePlain, can_begin, can_close, remaining_tokens, IsTextLen};

use std::marker::Model;

// The state of the reader: in front of a value or a mark, after a value, or after a comma.
#[derive(Clone, Copy, Drop)]
enum Place {
    Fresh,
    AfterValue,
    AfterComma,
}

/// The kind of text that is due.
#[derive(Clone, Copy, Drop)]
pub(crate) enum TextKind {
    /// A telegram.
    Telegram,
    /// A message.
    Message,
}

/// A reader of tokens. Contracts see the remaining tokens.
#[derive(Drop)]
pub(crate) struct TokenReader<'a> {
    rest: &'a [u8],
    place: Place,
}

impl<'a> Model for TokenReader<'a> {
    ghost use Rattle.std.specs.Prelude.{List};
    ghost use Rattle.json.specs.Token.{Token, tokens_code};

    ghost Value = { List Token };

    ghost coded = { tokens_code };

    ghost use Rattle.etcs_document.specs.TokenReader.{remaining_tokens};

    ghost view = { λ a. remaining_tokens a.place a.rest.now };
}

fn is_blank(byte: u8) -> bool
    ensures { result ≡ is_space byte }
{
    matches!(byte, b' ' | b'\t' | b'\n' | b'\r')
}

// The bytes after blanks.
#[inline]
fn pass_blanks(rest: &[u8]) -> &[u8]
    ensures { lex between result.now ≡ lex between rest.now }
{
    let mut at = 0;
    'blanks: while at < rest.len() && is_blank(rest[at]) {
        at += 1;
    }
    &rest[at..]
}

// The bytes after this byte, if it is the next one after blanks.
#[inline]
fn pass_byte(rest: &[u8], byte: u8) -> Option<&[u8]>
    ensures { IfSome result (λ r. lex between rest.now ≡ lex between (byte ∷ r.now)) }
{
    let begun = pass_blanks(rest);
    if begun.is_empty() || begun[0] != byte {
        return None;
    }
    Some(&begun[1..])
}

// The bytes after this key and its colon, if it is next.
#[inline(always)]
fn pass_name<'a>(rest: &'a [u8], name: &str) -> Option<&'a [u8]>
    requires plain { ArePlain name.now }
    ensures { IfSome result (λ r. lex between rest.now ≡ token (string_token name.now) ∷ colon ∷ lex between r.now) }
{
    let begun = pass_byte(rest, b'"')?;
    match begun.strip_prefix(name.as_bytes())? {
        [b'"', ended @ ..] => pass_byte(ended, b':'),
        _ => None,
    }
}

// The length of a text of this kind after its opening quote. Telegrams have 54 or 208 digits, so no quote is sought.
fn text_len(kind: TextKind, begun: &[u8]) -> Option<usize>
    ensures { IsTextLen kind begun.now result }
{
    match kind {
        TextKind::Telegram if begun.len() > 54 && begun[54] == b'"' => Some(54),
        TextKind::Telegram => Some(208),
        TextKind::Message => memchr::memchr(b'"', begun),
    }
}

// The bytes after a value and a comma, if there is one.
#[inline]
fn pass_comma(rest: &[u8]) -> (&[u8], Place)
    ensures { remaining_tokens result.1 result.0.now ≡ punctuate after_value (lex between rest.now) }
{
    match pass_byte(rest, b',') {
        Some(after) => (after, Place::AfterComma),
        None => (rest, Place::AfterValue),
    }
}

// The bytes after a text of a list, up to the next item or the end of the list.
fn pass_text(rest: &[u8]) -> Option<(&[u8], Place)>
    ensures { IfSome result (λ r. (remaining_tokens r.1 r.0.now ≡ punctuate after_value (lex between rest.now))
        × (begins_colon (lex between rest.now) ≡ false)) }
{
    let behind = pass_blanks(rest);
    match behind {
        [b',', after @ ..] => Some((after, Place::AfterComma)),
        [b']', ..] => Some((behind, Place::AfterValue)),
        _ => None,
    }
}

impl Place {
    fn may_begin(self) -> bool
        ensures { result ≡ can_begin self }
    {
        !matches!(self, Place::AfterValue)
    }

    fn may_close(self) -> bool
        ensures { result ≡ can_close self }
    {
        !matches!(self, Place::AfterComma)
    }
}

impl<'a> TokenReader<'a> {
    /// A reader of all tokens of a text.
    pub(crate) fn new(text: &'a [u8]) -> TokenReader<'a>
        ensures { result ≡ tokens text.now }
    {
        TokenReader {
            rest: text,
            place: Place::Fresh,
        }
    }

    /// Reads the byte that begins an object or a list, which may nest `depth` levels. Returns the number of levels
    /// that its parts may nest.
    #[inline]
    pub(crate) fn pass_open(&mut self, byte: u8, depth: usize) -> Option<usize>
        ensures depth { IfSome result (λ inner. depth ≡ inner + 1) }
        ensures object { byte ≡ 123 → IfSome result (λ _. self.old ≡ begin_object ∷ self.new) }
        ensures list { byte ≡ 91 → IfSome result (λ _. self.old ≡ begin_array ∷ self.new) }
    {
        let inner = depth.checked_sub(1)?;
        let rest = pass_byte(self.rest, byte)?;
        if !self.place.may_begin() {
            return None;
        }
        self.rest = rest;
        self.place = Place::Fresh;
        Some(inner)
    }

    /// Reads the byte that ends an object or a list. `false` changes nothing.
    #[inline]
    pub(crate) fn pass_close(&mut self, byte: u8) -> bool
        ensures object { byte ≡ 125 → IsTrue result → read_key self.old ≡ Some (None, self.new) }
        ensures list { byte ≡ 93 → IsTrue result → after_end_array self.old ≡ Some self.new }
        ensures no { IsFalse result → self.new ≡ self.old }
    {
        let Some(rest) = pass_byte(self.rest, byte) else {
            return false;
        };
        if !self.place.may_close() {
            return false;
        }
        let (rest, place) = pass_comma(rest);
        *self = TokenReader { rest, place };
        true
    }

    /// Reads this key. `false` changes nothing. Inlined, because the key is known to the caller.
    #[inline(always)]
    pub(crate) fn pass_key(&mut self, name: &str) -> bool
        requires plain { ArePlain name.now }
        ensures yes { IsTrue result → read_key self.old ≡ Some (Some name.now, self.new) }
        ensures no { IsFalse result → self.new ≡ self.old }
    {
        let Some(rest) = pass_name(self.rest, name) else {
            return false;
        };
        if !self.place.may_begin() {
            return false;
        }
        self.rest = rest;
        self.place = Place::Fresh;
        true
    }

    /// Reads a text of a list: the next string, if none of its bytes needs an escape. Nothing is promised of any
    /// other text.
    pub(crate) fn text(&mut self, kind: TextKind) -> Option<&'a [u8]>
        ensures { IfSome result (λ s. ArePlain s.now → self.old ≡ string_token s.now ∷ self.new) }
    {
        let begun = pass_byte(self.rest, b'"')?;
        let len = text_len(kind, begun)?;
        if begun.len() <= len || begun[len] != b'"' || !self.place.may_begin() {
            return None;
        }
        let (rest, place) = pass_text(&begun[len + 1..])?;
        *self = TokenReader { rest, place };
        Some(&begun[..len])
    }

    /// Whether all tokens were read.
    pub(crate) fn is_at_end(&self) -> bool
        ensures { IsTrue result → self.now ≡ [] }
    {
        self.place.may_close() && pass_blanks(self.rest).is_empty()
    }
}
