//! `JsonLineWriter`: a line of JSON, written token by token. A value is written with the comma that may follow it, and a
//! closing bracket overwrites that comma. So most tokens are appended as they are, a key together with its number.

ghost use Rattle.std.specs.Prelude.{◌≡◌, ◌-◌, ◌++◌, ◌∷◌, [], IfOk, List, OnOk, cond, decimal, false, not, true};
ghost use Rattle.std.specs.Bool.{OnTrue};
ghost use Rattle.json.specs.Print.{begins, ends, escape, print, IsPrintable};
ghost use Rattle.json.specs.Reads.{token_of};
ghost use Rattle.json.specs.Token.{Token as JsonToken, key, number};
ghost use Rattle.etcs_digits.specs.JsonLineWriter.{Becomes, value_comma, empty_line, put, puts, quoted_text, drop_comma};

use crate::text_room::{make_ready, place_byte, place_number, place_quoted};
use json::{Token, Writer};
use std::alloc::AllocError;
use std::marker::Model;

/// A line of JSON that is being written. Contracts see its text and whether that text ends with such a comma.
#[derive(Drop)]
pub struct JsonLineWriter {
    bytes: Vec<u8>,
    len: usize,
    // Whether the text ends with a value and the comma that may follow it.
    after_value: bool,
}

impl Model for JsonLineWriter {
    ghost use Rattle.std.specs.Prelude.{◌≤◌, length, take};
    ghost use Rattle.etcs_digits.specs.JsonLineWriter.{Line, line_code};

    ghost Value = { Line };

    ghost coded = { line_code };

    ghost view = { λ w. record { text = take w.len w.bytes.items; after_value = w.after_value } };

    ghost invariant = { λ w. w.len ≤ length w.bytes.items };
}

// Whether a text needs no escape. `false` is inconclusive. The compiler evaluates the call for a constant
// text, such as a key.
#[inline(always)]
fn is_plain(text: &[u8]) -> bool
    ensures { OnTrue result (escape text.now ≡ text.now) }
{
    'bytes: for &byte in text {
        if byte == b'"' || byte == b'\\' || byte < 0x20 {
            return false;
        }
    }
    true
}

// Whether a token is the last of a value.
#[inline(always)]
fn ends_value(token: Token<'_>) -> bool
    ensures { result ≡ ends (token_of token.entry) }
{
    !matches!(
        token,
        Token::BeginObject | Token::BeginArray | Token::Key(_)
    )
}

// The comma that may follow a value.
#[inline(always)]
fn comma(after_value: bool) -> &'static [u8]
    ensures { result.now ≡ value_comma after_value }
{
    if after_value { b"," } else { b"" }
}

// The length of the text without the comma at its end, if there is one.
#[inline(always)]
fn end_of(len: usize, comma: bool) -> usize
    ensures { result ≡ len - cond comma 1 0 }
{
    if comma { len.saturating_sub(1) } else { len }
}

impl JsonLineWriter {
    /// A line without a token, in the buffer `room`. The content of the buffer is lost.
    pub fn new(room: Vec<u8>) -> JsonLineWriter
        ensures { result ≡ empty_line }
    {
        JsonLineWriter {
            bytes: room,
            len: 0,
            after_value: false,
        }
    }

    /// The line of the tokens that were appended, with its `\n`. Fails only if memory runs out.
    pub fn into_line(self) -> Result<Vec<u8>, AllocError>
        ensures { IfOk result (λ line.
            (ts : List JsonToken) → self ≡ puts empty_line ts → line.items ≡ print ts ++ 10 ∷ []) }
    {
        let JsonLineWriter {
            mut bytes,
            len,
            after_value,
        } = self;
        bytes.truncate(end_of(len, after_value));
        bytes.push(b'\n')?;
        Ok(bytes)
    }

    // Appends the bracket that begins a list or an object.
    #[inline(always)]
    fn open(&mut self, mark: u8) -> Result<(), AllocError>
        ensures { Becomes result self.old self.new
            (record { text = self.old.text ++ mark ∷ []; after_value = false }) }
    {
        make_ready(&mut self.bytes, self.len, 1)?;
        self.len = place_byte(self.bytes.as_mut_slice(), self.len, mark);
        self.after_value = false;
        Ok(())
    }

    // Appends the bracket that ends a list or an object, over the comma after its last value.
    #[inline(always)]
    fn close(&mut self, mark: u8) -> Result<(), AllocError>
        ensures { Becomes result self.old self.new
            (record { text = drop_comma self.old.after_value self.old.text ++ mark ∷ 44 ∷ []; after_value = true }) }
    {
        make_ready(&mut self.bytes, self.len, 2)?;
        let buf = self.bytes.as_mut_slice();
        let at = place_byte(buf, end_of(self.len, self.after_value), mark);
        self.len = place_byte(buf, at, b',');
        self.after_value = true;
        Ok(())
    }

    // Appends a key or a string that needs no escape.
    #[inline(always)]
    fn put_plain(&mut self, text: &str, is_key: bool) -> Result<(), AllocError>
        ensures { Becomes result self.old self.new
            (record { text = self.old.text ++ quoted_text text.now (cond is_key 58 44); after_value = not is_key }) }
    {
        make_ready(&mut self.bytes, self.len, text.len() + 3)?;
        let behind = if is_key { b':' } else { b',' };
        let buf = self.bytes.as_mut_slice();
        self.len = place_quoted(buf, self.len, text.as_bytes(), behind);
        self.after_value = !is_key;
        Ok(())
    }

    // Appends a token that begins a value or a member, as `json` writes it. Not used for the names of
    // records.
    #[cold]
    #[inline(never)]
    fn put_by_json(&mut self, token: Token<'_>) -> Result<(), AllocError>
        requires begins { begins (token_of token) ≡ true }
        requires printable { IsPrintable (token_of token) }
        ensures { Becomes result self.old self.new (put self.old (token_of token.entry)) }
    {
        let mut writer = Writer::new(Vec::new(*self.bytes.allocator()));
        writer.token(token)?;
        let mut text = writer.into_inner();
        let after_value = ends_value(token);
        text.extend_from_slice(comma(after_value))?;
        self.bytes.truncate(self.len);
        self.bytes.extend_from_slice(text.as_slice())?;
        self.len = self.bytes.len();
        self.after_value = after_value;
        Ok(())
    }

    /// Appends a token.
    #[inline(always)]
    pub fn token(&mut self, token: Token<'_>) -> Result<(), AllocError>
        requires { IsPrintable (token_of token) }
        ensures { Becomes result self.old self.new (puts self.old (token_of token.entry ∷ [])) }
    {
        match token {
            Token::BeginObject => self.open(b'{'),
            Token::EndObject => self.close(b'}'),
            Token::BeginArray => self.open(b'['),
            Token::EndArray => self.close(b']'),
            Token::Key(name) if is_plain(name.as_bytes()) => self.put_plain(name, true),
            Token::String(text) if is_plain(text.as_bytes()) => self.put_plain(text, false),
            _ => self.put_by_json(token),
        }
    }

    /// Appends a number.
    #[inline(always)]
    pub fn number(&mut self, n: u64) -> Result<(), AllocError>
        ensures { Becomes result self.old self.new (puts self.old (number (decimal n) ∷ [])) }
    {
        make_ready(&mut self.bytes, self.len, 21)?;
        self.len = place_number(self.bytes.as_mut_slice(), self.len, n);
        self.after_value = true;
        Ok(())
    }

    // Appends a key that needs an escape, and then a number. If the number fails, the key is removed again.
    #[cold]
    #[inline(never)]
    fn member_by_json(&mut self, name: &str, n: u64) -> Result<(), AllocError>
        ensures { Becomes result self.old self.new (puts self.old (key name.now ∷ number (decimal n) ∷ [])) }
    {
        let (len, after_value) = (self.len, self.after_value);
        self.put_by_json(Token::Key(name))?;
        let added = self.number(n);
        if added.is_err() {
            self.len = len;
            self.after_value = after_value;
        }
        added
    }

    /// Appends a key and then a number, after one capacity check.
    #[inline(always)]
    pub fn member(&mut self, name: &str, n: u64) -> Result<(), AllocError>
        ensures { Becomes result self.old self.new (puts self.old (key name.now ∷ number (decimal n) ∷ [])) }
    {
        if !is_plain(name.as_bytes()) {
            return self.member_by_json(name, n);
        }
        make_ready(&mut self.bytes, self.len, name.len() + 24)?;
        let buf = self.bytes.as_mut_slice();
        let at = place_quoted(buf, self.len, name.as_bytes(), b':');
        self.len = place_number(buf, at, n);
        self.after_value = true;
        Ok(())
    }
}
