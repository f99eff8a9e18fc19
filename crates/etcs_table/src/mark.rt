//! `without_mark`: a text without its byte order mark.

ghost use Rattle.std.specs.Prelude.{◌≡◌};
ghost use Rattle.etcs_table.specs.Text.{without_mark};

// The byte order mark of UTF-8, which spreadsheets write at the start of a text.
const MARK: [u8; 3] = [0xef, 0xbb, 0xbf];

/// The text without a byte order mark at its start, if one is there.
pub fn without_mark(text: &[u8]) -> &[u8]
    ensures { result.now ≡ without_mark text.now }
{
    if text.len() < 3 {
        return text;
    }
    let (front, rest) = text.split_at(3);
    if front == MARK.as_slice() { rest } else { text }
}
