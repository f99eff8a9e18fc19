//! `Refusal`, with `LineFault` and `StreamFault`: why an input is refused. `refusal_text` writes its text.

ghost use Rattle.std.specs.Prelude.{◌≡◌, ◌++◌, codes, map, string_bytes, IfOk};
ghost use Rattle.etcs_schema.specs.Fault.{step_view};
ghost use Rattle.etcs_schema.specs.Path.{path_words};
ghost use Rattle.etcs_document.specs.Refusal.{document_words, form_words, line_words, radio_words, refusal_words, stream_words, text_words};

use crate::line_error::LineError;
use etcs_bits::{Fault, Memory};
use etcs_radio::RadioTextError;
use etcs_schema::{FormError, Path, Step};
use etcs_telegram::TextError;
use std::alloc::{AllocError, Global};

/// Why a line of the input is refused.
#[derive(Debug, Drop)]
pub enum LineFault {
    /// The line is not the text of a telegram or, in a stream of radio messages, not hexadecimal.
    Text(TextError),
    /// The line is not one JSON value in UTF-8, has a number out of range, or nests more than 127 levels.
    Json,
    /// The JSON value is not the form of a telegram, or of a radio message if messages are encoded.
    Form(FormError),
    /// The telegram has more bits than its size, or the radio message more bytes than L_MESSAGE can count.
    TooBig,
}

/// Why a message in a stream of radio messages is refused.
#[derive(Clone, Copy, Debug, PartialEq, Eq)]
pub enum StreamFault {
    /// The bytes of the message are not a message. This is their first fault.
    Fault(Fault),
    /// L_MESSAGE is below 3, the number of bytes up to the end of L_MESSAGE itself.
    BelowThree,
    /// The input ends within the message.
    CutOff,
}

/// Why the input is refused, and at which line or message.
#[derive(Debug, Drop)]
pub enum Refusal {
    /// The command line is not one that the program knows.
    Usage,
    /// The line with this number is refused. Lines count from 1.
    Line(u64, LineFault),
    /// The message with this number is refused. Messages count from 0.
    Message(u64, StreamFault),
    /// The bytes are not the document of a railway line.
    Document(LineError),
}

// Why a text is not a telegram, in words.
fn text_reason(alloc: Global, why: &TextError) -> Result<String, AllocError>
    ensures { IfOk result (λ s. string_bytes s ≡ text_words why.now) }
{
    match why {
        TextError::Memory => Ok(String::new(alloc)),
        TextError::NotHex => format!(in alloc; "not hexadecimal"),
        TextError::WrongSize => format!(in alloc; "wrong size"),
        TextError::PadBits => format!(in alloc; "pad bits set"),
        TextError::Fault(fault) => format!(in alloc; "{fault}"),
    }
}

// Why a text is not a radio message, in words.
fn radio_reason(alloc: Global, why: &RadioTextError) -> Result<String, AllocError>
    ensures { IfOk result (λ s. string_bytes s ≡ radio_words why.now) }
{
    match why {
        RadioTextError::Memory => Ok(String::new(alloc)),
        RadioTextError::NotHex => format!(in alloc; "not hexadecimal"),
        RadioTextError::Fault(fault) => format!(in alloc; "{fault}"),
    }
}

// The fault of a form, and its path.
fn form_text(alloc: Global, reason: &str, path: &[Step]) -> Result<String, AllocError>
    ensures { IfOk result (λ s. string_bytes s
        ≡ codes "form " ++ (reason.now ++ (codes " at " ++ path_words (map step_view path.now)))) }
{
    let path = Path(path);
    format!(in alloc; "form {reason} at {path}")
}

// Why a JSON value is not a form, in words.
fn form_reason(alloc: Global, why: &FormError) -> Result<String, AllocError>
    ensures { IfOk result (λ s. string_bytes s ≡ form_words why.now) }
{
    match why {
        FormError::Memory => Ok(String::new(alloc)),
        FormError::Missing(path) => form_text(alloc, "missing key", path.as_slice()),
        FormError::Unknown(path) => form_text(alloc, "unknown key", path.as_slice()),
        FormError::Kind(path) => form_text(alloc, "kind", path.as_slice()),
        FormError::Range(path) => form_text(alloc, "range", path.as_slice()),
    }
}

// Why a line is refused, in words.
#[tactic(auto, unfolding(crate::specs::Refusal::line_words))]
fn line_reason(alloc: Global, why: &LineFault) -> Result<String, AllocError>
    ensures { IfOk result (λ s. string_bytes s ≡ line_words why.now) }
{
    match why {
        LineFault::Text(why) => text_reason(alloc, why),
        LineFault::Json => format!(in alloc; "not JSON"),
        LineFault::Form(why) => form_reason(alloc, why),
        LineFault::TooBig => format!(in alloc; "too big"),
    }
}

// Why a message is refused, in words.
#[tactic(auto, unfolding(crate::specs::Refusal::stream_words))]
fn stream_reason(alloc: Global, why: &StreamFault) -> Result<String, AllocError>
    ensures { IfOk result (λ s. string_bytes s ≡ stream_words why.now) }
{
    match why {
        StreamFault::Fault(fault) => format!(in alloc; "{fault}"),
        StreamFault::BelowThree => format!(in alloc; "length below 3"),
        StreamFault::CutOff => format!(in alloc; "cut off"),
    }
}

// Why bytes are not the document of a line, in words.
#[tactic(auto, unfolding(crate::specs::Refusal::document_words))]
fn document_reason(alloc: Global, why: &LineError) -> Result<String, AllocError>
    ensures { IfOk result (λ s. string_bytes s ≡ document_words why.now) }
{
    match why {
        LineError::Memory => Ok(String::new(alloc)),
        LineError::NotJson => format!(in alloc; "not JSON"),
        LineError::Form(why) => form_reason(alloc, why),
        LineError::Count(group) => format!(in alloc; "group {group}: count"),
        LineError::Telegram(group, balise, why) => {
            let reason = text_reason(alloc, why)?;
            format!(in alloc; "group {group} balise {balise}: {reason}")
        }
        LineError::Message(message, why) => {
            let reason = radio_reason(alloc, why)?;
            format!(in alloc; "message {message}: {reason}")
        }
        LineError::Aspects(group) => format!(in alloc; "group {group}: aspects"),
        LineError::AspectTelegram(group, aspect, balise, why) => {
            let reason = text_reason(alloc, why)?;
            format!(in alloc; "group {group} aspect {aspect} balise {balise}: {reason}")
        }
    }
}

/// The text of a refusal, with its `\n`. Lack of memory is no reason to refuse an input, and has no text.
/// Fails only if memory runs out; then no text is returned.
#[tactic(auto, unfolding(crate::specs::Refusal::refusal_words))]
pub fn refusal_text(alloc: Global, refusal: &Refusal) -> Result<String, Memory>
    ensures { IfOk result (λ s. string_bytes s ≡ refusal_words refusal.now) }
{
    Ok(match refusal {
        Refusal::Usage => format!(in alloc;
            "refused: usage is balisecheck check, decode [--radio] or encode [--radio]\n"
        )?,
        Refusal::Line(number, why) => {
            let reason = line_reason(alloc, why)?;
            format!(in alloc; "refused: line {number}: {reason}\n")?
        }
        Refusal::Message(number, why) => {
            let reason = stream_reason(alloc, why)?;
            format!(in alloc; "refused: message {number}: {reason}\n")?
        }
        Refusal::Document(why) => {
            let reason = document_reason(alloc, why)?;
            format!(in alloc; "refused: {reason}\n")?
        }
    })
}
