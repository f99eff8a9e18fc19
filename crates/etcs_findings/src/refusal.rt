//! `put_refusal`: why bytes are not the document of a railway line, as a JSON object.

ghost use Rattle.std.specs.Prelude.{◌≡◌, IfOk, IfSome, OnOk, map, string_bytes};
ghost use Rattle.json.specs.Tree.{json_tokens};
ghost use Rattle.etcs_digits.specs.JsonLineWriter.{puts};
ghost use Rattle.etcs_document.specs.DocumentFault.{bad_form, bad_message, bad_telegram};
ghost use Rattle.etcs_findings.specs.Refusals.{fault_of, message_reason, refusal_json, step_json, telegram_reason, with_bits, with_fault, with_form, with_group, with_message_bits, with_path, with_telegram_bits};
ghost use Rattle.etcs_findings.specs.Writing.{AddsMembers};
ghost use Rattle.etcs_schema.specs.Fault.{error_fault, step_view};

use crate::members::{put_number, put_option, put_text};
use etcs_bits::Fault;
use etcs_digits::JsonLineWriter;
use etcs_document::LineError;
use etcs_radio::RadioTextError;
use etcs_schema::{FormError, Step};
use etcs_telegram::TextError;
use json::Token;
use std::alloc::{AllocError, Global};

// Appends the bits of a fault.
fn put_bits(out: &mut JsonLineWriter, fault: &Fault) -> Result<(), AllocError>
    ensures { OnOk result (AddsMembers (with_bits fault.now) out.old out.new) }
{
    put_number(out, "at", fault.at)?;
    put_number(out, "end", fault.end)
}

// The reason why a text is not a telegram.
fn telegram_reason(alloc: Global, why: &TextError) -> Result<String, AllocError>
    ensures { IfOk result (λ s. string_bytes s ≡ telegram_reason why.now) }
{
    match why {
        TextError::Memory => Ok(String::new(alloc)),
        TextError::NotHex => format!(in alloc; "not hexadecimal"),
        TextError::WrongSize => format!(in alloc; "wrong size"),
        TextError::PadBits => format!(in alloc; "pad bits set"),
        TextError::Fault(fault) => {
            let kind = fault.why;
            format!(in alloc; "{kind}")
        }
    }
}

// The reason why a text is not a message.
fn message_reason(alloc: Global, why: &RadioTextError) -> Result<String, AllocError>
    ensures { IfOk result (λ s. string_bytes s ≡ message_reason why.now) }
{
    match why {
        RadioTextError::Memory => Ok(String::new(alloc)),
        RadioTextError::NotHex => format!(in alloc; "not hexadecimal"),
        RadioTextError::Fault(fault) => {
            let kind = fault.why;
            format!(in alloc; "{kind}")
        }
    }
}

// Appends the bits of a telegram's fault, if it has some.
fn put_telegram_bits(out: &mut JsonLineWriter, why: &TextError) -> Result<(), AllocError>
    ensures { OnOk result (AddsMembers (with_telegram_bits why.now) out.old out.new) }
{
    match why {
        TextError::Fault(fault) => put_bits(out, fault),
        _ => Ok(()),
    }
}

// Appends the bits of a message's fault, if it has some.
fn put_message_bits(out: &mut JsonLineWriter, why: &RadioTextError) -> Result<(), AllocError>
    ensures { OnOk result (AddsMembers (with_message_bits why.now) out.old out.new) }
{
    match why {
        RadioTextError::Fault(fault) => put_bits(out, fault),
        _ => Ok(()),
    }
}

// Appends the fault of a balise's text.
#[tactic(auto, unfolding(crate::specs::Refusals::with_fault))]
fn put_telegram(
    alloc: Global,
    out: &mut JsonLineWriter,
    group: usize,
    aspect: Option<usize>,
    balise: usize,
    why: &TextError,
) -> Result<(), AllocError>
    ensures { OnOk result (AddsMembers (with_fault (bad_telegram group aspect balise why.now)) out.old out.new) }
{
    let reason = telegram_reason(alloc, why)?;
    put_text(out, "reason", reason.as_str())?;
    put_number(out, "group", group)?;
    put_option(out, "aspect", aspect)?;
    put_number(out, "balise", balise)?;
    put_telegram_bits(out, why)
}

// Appends the fault of a message's text.
#[tactic(auto, unfolding(crate::specs::Refusals::with_fault))]
fn put_message(
    alloc: Global,
    out: &mut JsonLineWriter,
    message: usize,
    why: &RadioTextError,
) -> Result<(), AllocError>
    ensures { OnOk result (AddsMembers (with_fault (bad_message message why.now)) out.old out.new) }
{
    let reason = message_reason(alloc, why)?;
    put_text(out, "reason", reason.as_str())?;
    put_number(out, "message", message)?;
    put_message_bits(out, why)
}

// Appends a step of a path.
fn put_step(out: &mut JsonLineWriter, step: &Step) -> Result<(), AllocError>
    ensures { OnOk result (out.new ≡ puts out.old (json_tokens (step_json (step_view step.now)))) }
{
    match *step {
        Step::Key(name) => out.token(Token::String(name)),
        Step::Place(index) => out.number(index as u64),
    }
}

// Appends a path.
fn put_path(out: &mut JsonLineWriter, path: &[Step]) -> Result<(), AllocError>
    ensures { OnOk result (AddsMembers (with_path (map step_view path.now)) out.old out.new) }
{
    out.token(Token::Key("path"))?;
    out.token(Token::BeginArray)?;
    'steps: for step in path {
        put_step(out, step)?;
    }
    out.token(Token::EndArray)
}

// Appends the reason why a value is not a line, and the path to that value.
fn put_form(out: &mut JsonLineWriter, reason: &str, path: &[Step]) -> Result<(), AllocError>
    ensures { OnOk result (AddsMembers (with_form reason.now (map step_view path.now)) out.old out.new) }
{
    put_text(out, "reason", reason)?;
    put_path(out, path)
}

// Appends why a value is not a line.
#[tactic(auto, unfolding(crate::specs::Refusals::with_fault))]
fn put_form_fault(out: &mut JsonLineWriter, why: &FormError) -> Result<(), AllocError>
    ensures { OnOk result (IfSome (error_fault why.now) (λ f. AddsMembers (with_fault (bad_form f)) out.old out.new)) }
{
    match why {
        FormError::Memory => Ok(()),
        FormError::Missing(path) => put_form(out, "missing key", path.as_slice()),
        FormError::Unknown(path) => put_form(out, "unknown key", path.as_slice()),
        FormError::Kind(path) => put_form(out, "kind", path.as_slice()),
        FormError::Range(path) => put_form(out, "range", path.as_slice()),
    }
}

// Appends the fault of a group with a wrong number of balises or aspects.
fn put_group(out: &mut JsonLineWriter, reason: &str, group: usize) -> Result<(), AllocError>
    ensures { OnOk result (AddsMembers (with_group reason.now group) out.old out.new) }
{
    put_text(out, "reason", reason)?;
    put_number(out, "group", group)
}

// Appends the reason and the place of a fault.
#[tactic(auto, unfolding(crate::specs::Refusals::with_fault))]
fn put_fault(alloc: Global, out: &mut JsonLineWriter, why: &LineError) -> Result<(), AllocError>
    ensures { OnOk result (IfSome (fault_of why.now) (λ f. AddsMembers (with_fault f) out.old out.new)) }
{
    match why {
        LineError::Memory => Ok(()),
        LineError::NotJson => put_text(out, "reason", "not JSON"),
        LineError::Form(why) => put_form_fault(out, why),
        LineError::Count(group) => put_group(out, "count", *group),
        LineError::Aspects(group) => put_group(out, "aspects", *group),
        LineError::Telegram(group, balise, why) => {
            put_telegram(alloc, out, *group, None, *balise, why)
        }
        LineError::AspectTelegram(group, aspect, balise, why) => {
            put_telegram(alloc, out, *group, Some(*aspect), *balise, why)
        }
        LineError::Message(message, why) => put_message(alloc, out, *message, why),
    }
}

/// Appends why bytes are not the document of a line. For lack of memory, which is no reason, the content is
/// unspecified. Fails only if memory runs out; part of it might then be appended.
pub(crate) fn put_refusal(
    alloc: Global,
    out: &mut JsonLineWriter,
    why: &LineError,
) -> Result<(), AllocError>
    ensures { OnOk result (IfSome (fault_of why.now) (λ f. out.new ≡ puts out.old (json_tokens (refusal_json f)))) }
{
    out.token(Token::BeginObject)?;
    put_text(out, "verdict", "refused")?;
    put_fault(alloc, out, why)?;
    out.token(Token::EndObject)
}
