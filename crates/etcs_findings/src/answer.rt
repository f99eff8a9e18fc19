//! `findings_json`: what `check` answers for the document of a railway line, as one line of JSON.

ghost use Rattle.std.specs.Prelude.{◌≡◌, IfOk, OnOk};
ghost use Rattle.json.specs.Tree.{json_tokens};
ghost use Rattle.etcs_digits.specs.JsonLineWriter.{puts};
ghost use Rattle.etcs_document.specs.Verdict.{summary_of_text};
ghost use Rattle.etcs_findings.specs.Answer.{answer_json, answer_outcome, findings_of_text, outcome_of, outcome_of_text};

use crate::finding::put_summary;
use crate::refusal::put_refusal;
use etcs_bits::Memory;
use etcs_check::Finding;
use etcs_digits::JsonLineWriter;
use etcs_document::{LineError, check_in_order};
use std::alloc::Global;

/// What an answer says of the bytes. It is the word of its member `verdict`.
#[derive(Clone, Copy, Debug, PartialEq, Eq)]
pub enum Outcome {
    /// They are the document of a line without findings.
    Yes,
    /// They are the document of a line with findings.
    No,
    /// They are not the document of a line.
    Refused,
}

// The outcome for a line with these findings.
fn outcome_of(findings: &[Finding]) -> Outcome
    ensures { result ≡ outcome_of findings.now }
{
    if findings.is_empty() {
        Outcome::Yes
    } else {
        Outcome::No
    }
}

// Appends the answer to a document.
fn put_answer(alloc: Global, out: &mut JsonLineWriter, bytes: &[u8]) -> Result<Outcome, Memory>
    ensures appended { OnOk result
        (out.new ≡ puts out.old (json_tokens (answer_json (summary_of_text bytes.now)))) }
    ensures outcome { IfOk result (λ o. o ≡ answer_outcome (summary_of_text bytes.now)) }
{
    match check_in_order(alloc, bytes) {
        Ok(checked) => {
            let findings = checked.findings.as_slice();
            put_summary(out, checked.groups, checked.messages, findings)?;
            Ok(outcome_of(findings))
        }
        Err(why) => match why {
            LineError::Memory => Err(Memory),
            _ => {
                put_refusal(alloc, out, &why)?;
                Ok(Outcome::Refused)
            }
        },
    }
}

/// Checks the document of a railway line as `check` does, and returns its answer as one JSON object with its `\n`:
///
/// - A line without findings: `{"verdict":"yes","groups":15,"messages":0,"findings":[]}`.
/// - A line with findings: `no` as the verdict, and an object for each finding, in the order of the report, such as
///   `{"rule":"F11","name":"gradient short","group":5,"aspect":2,"balise":1,"packet":1,"direction":"nominal"}`. A
///   finding about a message has `message` in place of `group`. What a finding does not have is omitted.
/// - Bytes that are not the document of a line: `refused` as the verdict, the reason of the refusal's text, and the
///   parts of its place, such as
///   `{"verdict":"refused","reason":"spare","group":0,"aspect":1,"balise":2,"at":51,"end":64}`. A fault of the
///   document's form has `path`, a list of keys and indexes.
///
/// Members are always in this order. Groups, aspects, balises, packets, messages and bits count from 0.
///
/// Returns the line, and the outcome, which the line has as its verdict. Fails only if memory runs out; then nothing is
/// returned.
pub fn findings_json(alloc: Global, bytes: &[u8]) -> Result<(Vec<u8>, Outcome), Memory>
    ensures line { IfOk result (λ answer. answer.0.items ≡ findings_of_text bytes.now) }
    ensures outcome { IfOk result (λ answer. answer.1 ≡ outcome_of_text bytes.now) }
{
    let mut out = JsonLineWriter::new(Vec::new(alloc));
    let outcome = put_answer(alloc, &mut out, bytes)?;
    let line = out.into_line()?;
    Ok((line, outcome))
}
