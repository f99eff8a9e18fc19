//! Streaming check: `check_in_order` reads the document of a railway line and checks it group by group, with a
//! `Checked` as its result. `None` means undecided, not refused.

ghost use Rattle.std.specs.Prelude.{◌≡◌, [], false, List, Ok, IfErr, IfOk, IfSome};
ghost use Rattle.std.specs.Str.{is_utf8};
ghost use Rattle.etcs_check.specs.LineChecker.{HasChecked};
ghost use Rattle.etcs_document.specs.Document.{◌then◌, document_line};
ghost use Rattle.etcs_document.specs.DocumentFault.{Gives};
ghost use Rattle.etcs_document.specs.DocumentTokens.{HasLine};
ghost use Rattle.etcs_document.specs.declared.line_error.LineError.TheVariants as errors;
ghost use Rattle.etcs_document.specs.Verdict.{NamesUnsoundParts, TextSaysYes, judged, summary, summary_of_text};
ghost use Rattle.etcs_radio.specs.declared.message.Message.{Message as SomeMessage};
ghost use Rattle.etcs_group.specs.Group.{Aspects};

use crate::document::read_json;
use crate::document_values::read_list;
use crate::line_error::LineError;
use crate::token_groups::items;
use crate::token_reader::TokenReader;
use etcs_check::{Finding, LineChecker};
use etcs_group::Controlled;
use etcs_radio::Message;
use etcs_schema::{JsonTree, check_keys};
use json::Scratch;
use std::alloc::Global;

// The greatest depth of nesting in a document.
const DEPTH: usize = 127;

/// The result of a streaming check: the counts of a line, whose records were not kept, and its findings.
#[derive(Debug, Drop)]
pub struct Checked {
    /// The number of groups of the line.
    pub groups: usize,
    /// The number of messages of the line.
    pub messages: usize,
    /// All facts against the line, in the order of [`Verdict`](crate::Verdict).
    pub findings: Vec<Finding>,
}

// Reads the two members of a document, in either order.
fn members(
    alloc: Global,
    reader: &mut TokenReader<'_>,
    depth: usize,
    checker: &mut LineChecker,
) -> Option<()>
    ensures { HasChecked checker.old [] [] → IfSome result (λ _. HasLine depth reader.old checker.new reader.new) }
{
    if reader.pass_key("groups") {
        items::<Controlled, LineChecker>(alloc, reader, depth, checker)?;
        reader.pass_key("messages").then_some(())?;
        return items::<Message, LineChecker>(alloc, reader, depth, checker);
    }
    reader.pass_key("messages").then_some(())?;
    items::<Message, LineChecker>(alloc, reader, depth, checker)?;
    reader.pass_key("groups").then_some(())?;
    items::<Controlled, LineChecker>(alloc, reader, depth, checker)
}

// The result of a checker.
fn found_by(checker: LineChecker) -> Result<Checked, LineError>
    ensures ok { IfOk result (λ c. (gs : List Aspects) (ms : List SomeMessage)
        → HasChecked checker gs ms → ((c.groups, c.messages), c.findings.items) ≡ summary (judged (gs, ms))) }
    ensures memory { IfErr result (λ e. e ≡ errors.Memory) }
{
    Ok(Checked {
        groups: checker.groups(),
        messages: checker.messages(),
        findings: checker.finish()?,
    })
}

/// Reads and checks a document group by group and message by message. `None` is inconclusive; the caller
/// then reads the document as JSON.
pub(crate) fn quick_check(alloc: Global, bytes: &[u8]) -> Option<Checked>
    ensures { IfSome result
        (λ c. summary_of_text bytes.now ≡ Ok ((c.groups, c.messages), c.findings.items)) }
{
    let text = str::from_utf8(bytes).ok()?;
    let mut reader = TokenReader::new(text.as_bytes());
    let mut checker = LineChecker::new(alloc);
    let inner = reader.pass_open(b'{', DEPTH)?;
    members(alloc, &mut reader, inner, &mut checker)?;
    if !reader.pass_close(b'}') || !reader.is_at_end() {
        return None;
    }
    found_by(checker).ok()
}

// Checks the line of a document, and keeps no group and no message.
#[tactic(auto, unfolding(crate::specs::Document::document_line, crate::specs::Document::line_groups, crate::specs::Document::line_messages))]
fn check_document<T: JsonTree>(alloc: Global, tree: &T) -> Result<Checked, LineError>
    ensures { Gives (λ c. ((c.groups, c.messages), c.findings.items)) result
        ((document_line (T.value tree.now) then λ line. Ok (judged line)) then λ verdict. Ok (summary verdict)) }
{
    check_keys(alloc, &tree, &["groups", "messages"])?;
    let mut checker = LineChecker::new(alloc);
    read_list::<Controlled, _, LineChecker>(alloc, &tree, "groups", &mut checker)?;
    read_list::<Message, _, LineChecker>(alloc, &tree, "messages", &mut checker)?;
    Ok(found_by(checker)?)
}

/// Checks the document of a railway line as [`check_text`](crate::check_text) does, but keeps no group and no
/// message: only their counts, and the findings.
///
/// A document without repeated keys and without escapes in strings is read group by group and message by
/// message, in either order of the two lists. This takes memory for the identities, the findings, and the
/// records of one group or message at a time. Any other document, a document that is refused, and a document
/// for which memory ran out are read again as JSON. This takes one byte more for each byte, 32 bytes for each
/// item of a list, and 48 bytes for each member of an object. Each list and object has room for four of them, or
/// for up to twice as many as it contains.
///
/// The errors are the same as for [`check_text`](crate::check_text). After an error neither counts nor findings
/// are returned.
#[tactic(auto, unfolding(crate::specs::Document::line_of_text))]
pub fn check_in_order(alloc: Global, bytes: &[u8]) -> Result<Checked, LineError>
    ensures exact { Gives (λ c. ((c.groups, c.messages), c.findings.items)) result
        (summary_of_text bytes.now) }

    // Without findings, the bytes are a line for which everything that a yes states is true.
    ensures says { IfOk result (λ c. c.findings.items ≡ [] → TextSaysYes bytes.now) }

    // A group or a message is sound if and only if no finding names it, whatever is found elsewhere.
    // Exception: of two groups with the same identity the later one is named.
    ensures unnamed { IfOk result (λ c. NamesUnsoundParts bytes.now c.findings.items) }

    // An empty input and an input that is not UTF-8 are not JSON, even if memory is short.
    ensures empty { bytes.now ≡ [] → result ≡ Err LineError.NotJson }
    ensures unreadable { is_utf8 bytes.now ≡ false → result ≡ Err LineError.NotJson }
{
    if let Some(checked) = quick_check(alloc, bytes) {
        return Ok(checked);
    }
    let mut scratch = Scratch::new(alloc);
    let document = read_json(alloc, bytes, &mut scratch)?;
    Ok(check_document(alloc, document.root())?)
}
