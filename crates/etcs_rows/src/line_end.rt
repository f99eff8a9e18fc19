//! Line ends: a carriage return, a line feed, or both.

ghost use Rattle.std.specs.Prelude.{◌≡◌, ◌<◌, IsTrue, length};
ghost use Rattle.etcs_rows.specs.LineEnd.{after_line_end, begins_with_line_end, without_line_feed};

// The text without the line feed at its start, if one is there.
fn without_line_feed(text: &[u8]) -> &[u8]
    ensures { result.now ≡ without_line_feed text.now }
{
    if text.is_empty() || text[0] != b'\n' {
        return text;
    }
    let (_, rest) = text.split_at(1);
    rest
}

/// Whether a text begins with a line end.
pub(crate) fn begins_with_line_end(text: &[u8]) -> bool
    ensures { result ≡ begins_with_line_end text.now }
{
    !text.is_empty() && (text[0] == b'\r' || text[0] == b'\n')
}

/// The text after the line end at its start.
pub(crate) fn after_line_end(text: &[u8]) -> &[u8]
    requires { IsTrue (begins_with_line_end text.now) }
    ensures rest { result.now ≡ after_line_end text.now }
    ensures ahead { length result.now < length text.now }
{
    let (_, rest) = text.split_at(1);
    if text[0] == b'\r' {
        without_line_feed(rest)
    } else {
        rest
    }
}
