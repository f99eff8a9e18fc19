//! Rows of texts, and their wrong quotes.

use etcs_rows::{Delimiter, RowReader};
use std::alloc::Global;
use std::test::Fail;

// The rows of a text in one: each with its number, and a bar before each field. An error ends it.
fn shown(alloc: Global, delimiter: Delimiter, text: &str) -> Result<String, Fail> {
    let mut reader = RowReader::new(delimiter, text.as_bytes());
    let mut fields = Vec::new(alloc);
    let mut rows = Vec::new(alloc);
    for _ in 0..20 {
        match reader.next_row(&mut fields) {
            Ok(None) => break,
            Ok(Some(number)) => {
                rows.extend_from_slice(format!(in alloc; "{number}")?.as_bytes())?;
                for field in &fields {
                    rows.push(b'|')?;
                    rows.extend_from_slice(field.text(alloc)?.as_slice())?;
                }
                rows.push(b' ')?;
            }
            Err(error) => {
                rows.extend_from_slice(format!(in alloc; "{error}")?.as_bytes())?;
                break;
            }
        }
    }
    Ok(String::from_utf8(rows).unwrap_or(String::new(alloc)))
}

#[test]
fn each_text_has_its_rows(rt: HostRuntime) -> Result<(), Fail> {
    let cases = [
        ("", ""),
        ("a", "1|a "),
        ("a\n", "1|a "),
        ("a,b\r\nc,d\r\n", "1|a|b 2|c|d "),
        ("a\rb\nc", "1|a 2|b 3|c "),
        ("\n\r\n\ra,\n\n,b", "4|a| 6||b "),
        (",,\n;", "1||| 2|; "),
        ("\"a\",\"b\"\n", "1|a|b "),
        ("\"a,\r\nb\"\nc", "1|a,\r\nb 2|c "),
        ("\"say \"\"A\"\"\",b", "1|say \"A\"|b "),
        ("\"\"\"\"", "1|\" "),
        ("\"\",\"\"\n", "1|| "),
        ("a\nb\"c\nd", "1|a row 2: a quote in a field without quotes"),
        ("\n\"a\"b", "row 2: text after the quote that ends a field"),
        ("a\n\"b\nc\nd", "1|a row 2: a quote that is not closed"),
        ("\"a\"\"", "row 1: a quote that is not closed"),
    ];
    for (text, wanted) in cases {
        let rows = shown(rt.alloc(), Delimiter::Comma, text)?;
        assert_eq!(rt; rows.as_str(), wanted);
    }
    Ok(())
}

#[test]
fn each_delimiter_separates_only_its_fields(rt: HostRuntime) -> Result<(), Fail> {
    let cases = [
        (Delimiter::Comma, "1|a|b;c\td "),
        (Delimiter::Semicolon, "1|a,b|c\td "),
        (Delimiter::Tab, "1|a,b;c|d "),
    ];
    for (delimiter, wanted) in cases {
        let rows = shown(rt.alloc(), delimiter, "a,b;c\td")?;
        assert_eq!(rt; rows.as_str(), wanted);
    }
    Ok(())
}

#[test]
fn a_field_is_lent_unless_it_has_quotes(rt: HostRuntime) -> Result<(), Fail> {
    let text = "a,\"b,c\",\"d\"\"\"";
    let mut reader = RowReader::new(Delimiter::Comma, text.as_bytes());
    let mut fields = Vec::new(rt.alloc());
    assert_eq!(rt; reader.next_row(&mut fields)?, Some(1));
    let mut lent = Vec::new(rt.alloc());
    for field in &fields {
        lent.push(field.lent())?;
    }
    let wanted: [Option<&[u8]>; 3] = [Some(b"a"), Some(b"b,c"), None];
    assert!(rt; lent.as_slice() == wanted.as_slice());
    Ok(())
}
