//! `put_text`, `put_number` and `put_option`: members of a JSON object, appended to a line.

ghost use Rattle.std.specs.Prelude.{OnOk};
ghost use Rattle.etcs_findings.specs.Members.{with_number, with_option, with_text};
ghost use Rattle.etcs_findings.specs.Writing.{AddsMembers};

use etcs_digits::JsonLineWriter;
use json::Token;
use std::alloc::AllocError;

/// Appends a member that is a text.
pub(crate) fn put_text(out: &mut JsonLineWriter, name: &str, text: &str) -> Result<(), AllocError>
    ensures { OnOk result (AddsMembers (with_text name.now text.now) out.old out.new) }
{
    out.token(Token::Key(name))?;
    out.token(Token::String(text))
}

/// Appends a member that is a number.
pub(crate) fn put_number(
    out: &mut JsonLineWriter,
    name: &str,
    number: usize,
) -> Result<(), AllocError>
    ensures { OnOk result (AddsMembers (with_number name.now number) out.old out.new) }
{
    out.member(name, number as u64)
}

/// Appends a member that is a number, or nothing.
pub(crate) fn put_option(
    out: &mut JsonLineWriter,
    name: &str,
    number: Option<usize>,
) -> Result<(), AllocError>
    ensures { OnOk result (AddsMembers (with_option name.now number) out.old out.new) }
{
    match number {
        None => Ok(()),
        Some(number) => put_number(out, name, number),
    }
}
