//! `refusal_text`: why a table is refused, as text.

ghost use Rattle.std.specs.Prelude.{◌≡◌, ◌++◌, codes, string_bytes, IfOk};
ghost use Rattle.etcs_document.specs.Refusal.{text_words};
ghost use Rattle.etcs_table_check.specs.RefusalText.{column_words, fault_words, quote_words, reason_words, refusal_words, row_reason};

use crate::error::TableRefusal;
use etcs_bits::Memory;
use etcs_rows::QuoteFault;
use etcs_table::{Column, TableFault};
use etcs_telegram::TextError;
use std::alloc::{AllocError, Global};

// A column by its usual heading.
fn column_text(column: Column) -> &'static str
    ensures { result.now ≡ column_words column }
{
    match column {
        Column::Group => "group",
        Column::Telegram => "telegram",
        Column::Aspect => "aspect",
        Column::Balise => "balise",
    }
}

// What is wrong with a quote.
fn quote_text(fault: QuoteFault) -> &'static str
    ensures { result.now ≡ quote_words fault }
{
    match fault {
        QuoteFault::Inside => "a quote in a field without quotes",
        QuoteFault::Text => "text after the quote that ends a field",
        QuoteFault::Open => "a quote that is not closed",
    }
}

// A row, and what is wrong with it.
fn row_text(alloc: Global, row: usize, words: &str) -> Result<String, AllocError>
    ensures { IfOk result (λ s. string_bytes s ≡ row_reason row words.now) }
{
    format!(in alloc; "row {row}: {words}")
}

// Why a table stands for no groups, in words.
#[tactic(auto, unfolding(crate::specs::RefusalText::fault_words))]
fn fault_text(alloc: Global, fault: &TableFault) -> Result<String, AllocError>
    ensures { IfOk result (λ s. string_bytes s ≡ fault_words fault.now) }
{
    match *fault {
        TableFault::NotUtf8 => format!(in alloc; "not UTF-8"),
        TableFault::NoHeading => format!(in alloc; "no heading row"),
        TableFault::TwoDelimiters => format!(in alloc; "two delimiters give a heading row"),
        TableFault::Empty => format!(in alloc; "no telegram"),
        TableFault::Above(row) => row_text(alloc, row, "a telegram above the headings"),
        TableFault::Twice(row, column) => {
            let name = column_text(column);
            let words = format!(in alloc; "heading {name} twice")?;
            row_text(alloc, row, words.as_str())
        }
        TableFault::Lacking(row, column) => {
            let name = column_text(column);
            let words = format!(in alloc; "no {name}")?;
            row_text(alloc, row, words.as_str())
        }
        TableFault::TooWide(row) => row_text(alloc, row, "text to the right of the headings"),
        TableFault::BlankEdge(row, column) => {
            let name = column_text(column);
            let words = format!(in alloc; "a blank at an end of the {name}")?;
            row_text(alloc, row, words.as_str())
        }
        TableFault::NotHexadecimal(row) => row_text(alloc, row, "the telegram is not hexadecimal"),
        TableFault::NotANumber(row) => {
            row_text(
                alloc,
                row,
                "the balise is not a number of up to four digits",
            )
        }
        TableFault::Quote(wrong) => row_text(alloc, wrong.row, quote_text(wrong.fault)),
        TableFault::Unnamed(row) => row_text(alloc, row, "no aspect"),
        TableFault::Unnumbered(row) => row_text(alloc, row, "no balise"),
        TableFault::Repeated(row) => row_text(alloc, row, "balise twice"),
        TableFault::Ninth(row) => row_text(alloc, row, "ninth balise"),
        TableFault::Uneven(row) => {
            row_text(
                alloc,
                row,
                "another count of balises than in the first aspect",
            )
        }
        TableFault::Moved(row) => row_text(alloc, row, "not at one place in all aspects"),
    }
}

// Why the digits of a row are no telegram, in words.
fn text_reason(alloc: Global, why: &TextError) -> Result<String, AllocError>
    ensures { IfOk result (λ s. string_bytes s ≡ text_words why.now) }
{
    match why {
        TextError::Memory => Ok(String::new(alloc)),
        TextError::NotHex => format!(in alloc; "not hexadecimal"),
        TextError::WrongSize => format!(in alloc; "wrong size"),
        TextError::PadBits => format!(in alloc; "pad bits set"),
        TextError::Fault(fault) => format!(in alloc; "{fault}"),
    }
}

// Why a table is refused, in words.
#[tactic(auto, unfolding(crate::specs::RefusalText::reason_words))]
fn reason_text(alloc: Global, why: &TableRefusal) -> Result<String, AllocError>
    ensures { IfOk result (λ s. string_bytes s ≡ reason_words why.now) }
{
    match why {
        TableRefusal::Table(fault) => fault_text(alloc, fault),
        TableRefusal::Telegram(row, why) => {
            let words = text_reason(alloc, why)?;
            row_text(alloc, *row, words.as_str())
        }
    }
}

/// The text of a refusal: `refused: ` and why, with the number of the row, if there is one. It ends with `\n`. Fails only
/// if memory runs out; then no text is returned.
pub fn refusal_text(alloc: Global, why: &TableRefusal) -> Result<String, Memory>
    ensures { IfOk result (λ s. string_bytes s ≡ refusal_words why.now) }
{
    let words = reason_text(alloc, why)?;
    Ok(format!(in alloc; "refused: {words}\n")?)
}
