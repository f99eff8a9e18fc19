//! What is read in the text of a field.

ghost use Rattle.std.specs.Prelude.{◌≡◌, ◌≤◌, length, true};
ghost use Rattle.std.specs.List.{list_all, list_any};
ghost use Rattle.etcs_table.specs.Entries.{number_of};
ghost use Rattle.etcs_table.specs.Heading.{reads_as};
ghost use Rattle.etcs_table.specs.Text.{digits_of, has_edge, is_blank, is_decimal, is_hexadecimal, reads_as_telegram};

/// Whether a byte is a space or a tab.
pub(crate) fn is_blank(c: u8) -> bool
    ensures { result ≡ is_blank c }
{
    c == b' ' || c == b'\t'
}

/// Whether a text has a blank.
pub(crate) fn has_blank(text: &[u8]) -> bool
    ensures { result ≡ list_any is_blank text.now }
{
    text.iter().any(|c| is_blank(*c))
}

// Whether a byte is a decimal digit.
fn is_decimal(c: u8) -> bool
    ensures { result ≡ is_decimal c }
{
    c.is_ascii_digit()
}

// Whether a byte is a hexadecimal digit.
fn is_hexadecimal(c: u8) -> bool
    ensures { result ≡ is_hexadecimal c }
{
    c.is_ascii_hexdigit()
}

/// Whether a text has decimal digits only.
pub(crate) fn has_decimals_only(text: &[u8]) -> bool
    ensures { result ≡ list_all is_decimal text.now }
{
    text.iter().all(|c| is_decimal(*c))
}

/// Whether a text has hexadecimal digits and blanks only.
pub(crate) fn has_digits_only(text: &[u8]) -> bool
    ensures { result ≡ list_all is_hexadecimal (digits_of text.now) }
{
    text.iter()
        .filter(|c| !is_blank(**c))
        .all(|c| is_hexadecimal(*c))
}

// How many bytes of a text are no blanks.
fn digit_count(text: &[u8]) -> usize
    ensures { result ≡ length (digits_of text.now) }
{
    text.iter().filter(|c| !is_blank(**c)).count()
}

/// Whether a text reads as a telegram, be it a wrong one.
pub(crate) fn reads_as_telegram(text: &[u8]) -> bool
    ensures { result ≡ reads_as_telegram text.now }
{
    digit_count(text) >= 40 && has_digits_only(text)
}

/// Whether a name begins or ends with a blank.
pub(crate) fn has_edge(name: &[u8]) -> bool
    ensures { result ≡ has_edge name.now }
{
    !name.is_empty() && (is_blank(name[0]) || is_blank(name[name.len() - 1]))
}

/// Whether a field is this heading, in letters of either case.
pub(crate) fn reads_as(word: &[u8], field: &[u8]) -> bool
    ensures { result ≡ reads_as word.now field.now }
{
    field.eq_ignore_ascii_case(word)
}

/// The number of a balise: none if the field is empty.
pub(crate) fn number_of(field: &[u8]) -> Option<u32>
    requires decimal { list_all is_decimal field.now ≡ true }
    requires short { length field.now ≤ 4 }
    ensures { result ≡ number_of field.now }
{
    if field.is_empty() {
        return None;
    }
    let mut number: u32 = 0;
    for c in field {
        number = number * 10 + u32::from(*c - b'0');
    }
    Some(number)
}
