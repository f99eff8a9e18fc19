//! A line of JSON that is written token by token, with keys and texts that need escapes too, which no record has.

use etcs_digits::JsonLineWriter;
use json::Token;
use std::alloc::{AllocError, Global};
use std::test::Fail;

// A line of a list: of an object with a number and a text, of a number, and of other tokens.
fn line_of(alloc: Global, text: &str, number: u64) -> Result<Vec<u8>, AllocError> {
    let mut out = JsonLineWriter::new(Vec::new(alloc));
    out.token(Token::BeginArray)?;
    out.token(Token::BeginObject)?;
    out.member(text, number)?;
    out.token(Token::Key(text))?;
    out.token(Token::String(text))?;
    out.token(Token::EndObject)?;
    out.number(number)?;
    out.token(Token::Null)?;
    out.token(Token::EndArray)?;
    out.into_line()
}

/// Texts and numbers, and the line of each.
const LINES: [(&str, u64, &str); 4] = [
    ("q", 0, "[{\"q\":0,\"q\":\"q\"},0,null]\n"),
    ("", 1000, "[{\"\":1000,\"\":\"\"},1000,null]\n"),
    (
        "\"\n",
        999_999,
        "[{\"\\\"\\n\":999999,\"\\\"\\n\":\"\\\"\\n\"},999999,null]\n",
    ),
    (
        "more than thirty-two letters in a row",
        u64::MAX,
        "[{\"more than thirty-two letters in a row\":18446744073709551615,\
\"more than thirty-two letters in a row\":\"more than thirty-two letters in a row\"},\
18446744073709551615,null]\n",
    ),
];

#[test]
fn lines_are_written_with_escapes(rt: HostRuntime) -> Result<(), Fail> {
    for (text, number, line) in LINES {
        let written = line_of(rt.alloc(), text, number)?;
        assert!(rt; written.as_slice() == line.as_bytes(), "{text}");
    }
    Ok(())
}
