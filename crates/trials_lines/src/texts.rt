//! The texts of errors of forms, documents and checks.

use etcs_bits::{Fault, FaultKind};
use etcs_check::CheckError;
use etcs_form::{FormError, LineError, Step};
use etcs_radio::RadioTextError;
use etcs_telegram::TextError;
use std::alloc::{AllocError, Global};
use std::fmt::Display;
use std::test::Fail;

// Whether the error is printed as this text.
fn says<E: Display>(alloc: Global, error: &E, text: &str) -> bool {
    match error.to_string(alloc) {
        Ok(said) => said.as_str() == text,
        Err(_) => false,
    }
}

// The path to the first packet.
fn way(alloc: Global) -> Result<Vec<Step>, AllocError> {
    Vec::from_slice(alloc, &[Step::Key("packets"), Step::Place(0)])
}

#[test]
fn errors_of_forms_say_what_is_wrong_and_where(rt: HostRuntime) -> Result<(), Fail> {
    let alloc = rt.alloc();
    let missing = FormError::Missing(way(alloc)?);
    assert!(rt; says(alloc, &missing, "form missing key at /packets/0"));
    let unknown = FormError::Unknown(way(alloc)?);
    assert!(rt; says(alloc, &unknown, "form unknown key at /packets/0"));
    let range = FormError::Range(way(alloc)?);
    assert!(rt; says(alloc, &range, "form range at /packets/0"));
    let kind = FormError::Kind(Vec::new(alloc));
    assert!(rt; says(alloc, &kind, "form kind at /"));
    assert!(rt; says(alloc, &FormError::Memory, "out of memory"));
    Ok(())
}

#[test]
fn errors_of_documents_say_what_is_wrong_and_where(rt: HostRuntime) -> Result<(), Fail> {
    let alloc = rt.alloc();
    assert!(rt; says(alloc, &LineError::NotJson, "not JSON"));
    let form = LineError::Form(FormError::Kind(way(alloc)?));
    assert!(rt; says(alloc, &form, "form kind at /packets/0"));
    assert!(rt; says(alloc, &LineError::Count(1), "group 1: count"));
    assert!(rt; says(alloc, &LineError::Aspects(1), "group 1: aspects"));
    let telegram = LineError::Telegram(1, 2, TextError::NotHex);
    assert!(rt; says(alloc, &telegram, "group 1 balise 2: not hexadecimal"));
    let telegram = LineError::AspectTelegram(1, 2, 3, TextError::PadBits);
    assert!(rt; says(alloc, &telegram, "group 1 aspect 2 balise 3: pad bits set"));
    let (at, end, why) = (15, 17, FaultKind::Spare);
    let message = LineError::Message(1, RadioTextError::Fault(Fault { at, end, why }));
    assert!(rt; says(alloc, &message, "message 1: spare at 15 end 17"));
    assert!(rt; says(alloc, &LineError::Memory, "out of memory"));
    Ok(())
}

#[test]
fn errors_of_checks_say_what_is_wrong(rt: HostRuntime) {
    let alloc = rt.alloc();
    assert!(rt; says(alloc, &CheckError::Memory, "out of memory"));
    assert!(rt; says(alloc, &CheckError::TooMany, "too many to be counted"));
}
