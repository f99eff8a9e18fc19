//! Rows of tables that have a telegram, and faults of tables.

use etcs_table::{Headings, read_telegram_rows};
use std::alloc::Global;
use std::test::Fail;

// The rows of a table in one: each with its number, group, aspect, balise and digits. An error is shown in their place.
fn shown(alloc: Global, headings: &Headings<'_>, table: &[u8]) -> Result<String, Fail> {
    let rows = match read_telegram_rows(alloc, headings, table) {
        Ok(rows) => rows,
        Err(error) => return Ok(format!(in alloc; "{error}")?),
    };
    let mut text = Vec::new(alloc);
    for row in &rows {
        let number = row.row();
        text.extend_from_slice(format!(in alloc; "{number}")?.as_bytes())?;
        text.push(b'|')?;
        text.extend_from_slice(row.group())?;
        text.push(b'|')?;
        text.extend_from_slice(row.aspect())?;
        text.push(b'|')?;
        if let Some(balise) = row.number() {
            text.extend_from_slice(format!(in alloc; "{balise}")?.as_bytes())?;
        }
        text.push(b'|')?;
        text.extend_from_slice(row.digits())?;
        text.push(b' ')?;
    }
    Ok(String::from_utf8(text).unwrap_or(String::new(alloc)))
}

#[test]
fn each_table_has_its_telegrams(rt: HostRuntime) -> Result<(), Fail> {
    let cases = [
        ("group,telegram\nA,0\n", "2|A|||0 "),
        ("\u{feff}group;telegram\r\nA;0\r\nB;1", "2|A|||0 3|B|||1 "),
        (
            "Line 1\n\nTELEGRAM\tx\tGroup\n0A 1\t\tA\n\t\t\n\nff\t\tB\n",
            "4|A|||0A1 7|B|||ff ",
        ),
        (
            "balise,aspect,group,telegram\n2,red,A,a1\n07,*,A,b\n,,B,0\n",
            "2|A|red|2|a1 3|A|*|7|b 4|B|||0 ",
        ),
        (
            "group,telegram\n\"A\"\"\n\",\"0\n1\"",
            "row 2: the telegram is not hexadecimal",
        ),
        ("group,telegram\n\"A\"\"1\",\"0 1\"", "2|A\"1|||01 "),
        ("group,x\nA,0\n", "no heading row"),
        (
            "group,telegram\ngroup;telegram\n",
            "two delimiters give a heading row",
        ),
        (
            "0123456789012345678901234567890123456789,\ngroup,telegram\nA,0\n",
            "row 1: a telegram above the headings",
        ),
        (
            "group,telegram,GROUP\nA,0,B\n",
            "row 1: heading group twice",
        ),
        ("group,telegram\n\n,0\n", "row 3: no group"),
        ("group,telegram\nA,\n", "row 2: no telegram"),
        (
            "group,telegram\nA,0,,x\n",
            "row 2: text to the right of the headings",
        ),
        (
            "group,telegram,aspect\nA,0, x\n",
            "row 2: a blank at an end of the aspect",
        ),
        (
            "group,telegram\nA\t,0\n",
            "row 2: a blank at an end of the group",
        ),
        (
            "group,telegram\nA,0x1\n",
            "row 2: the telegram is not hexadecimal",
        ),
        (
            "group,telegram,balise\nA,0,first\n",
            "row 2: the balise is not a number of up to four digits",
        ),
        (
            "group,telegram,balise\nA,0,12345\n",
            "row 2: the balise is not a number of up to four digits",
        ),
        (
            "group,telegram\nA,\"0\nB,1\n",
            "row 2: a quote that is not closed",
        ),
        ("group,telegram\n,\n", "no telegram"),
    ];
    for (table, wanted) in cases {
        let rows = shown(rt.alloc(), &Headings::usual(), table.as_bytes())?;
        assert_eq!(rt; rows.as_str(), wanted);
    }
    Ok(())
}

#[test]
fn headings_may_be_the_users_own(rt: HostRuntime) -> Result<(), Fail> {
    let headings = Headings::new(b"BG", b"Telegramm", b"Begriff", b"Nr");
    let rows = shown(rt.alloc(), &headings, b"bg;telegramm;group\nA;0;1\n")?;
    assert_eq!(rt; rows.as_str(), "2|A|||0 ");
    Ok(())
}

#[test]
fn a_table_that_is_not_utf8_is_refused(rt: HostRuntime) -> Result<(), Fail> {
    let rows = shown(rt.alloc(), &Headings::usual(), b"group,telegram\nA\xff,0\n")?;
    assert_eq!(rt; rows.as_str(), "not UTF-8");
    Ok(())
}
