//! The texts of errors.

use etcs_bits::{DecodeError, Fault, FaultKind, Memory};
use etcs_profile::BuildError;
use etcs_radio::RadioTextError;
use etcs_telegram::TextError;
use std::alloc::Global;
use std::fmt::Display;

// Whether the error is printed as this text.
fn says<E: Display>(alloc: Global, error: &E, text: &str) -> bool {
    match error.to_string(alloc) {
        Ok(said) => said.as_str() == text,
        Err(_) => false,
    }
}

#[test]
fn errors_say_what_is_wrong(rt: HostRuntime) {
    let alloc = rt.alloc();
    let (at, end, why) = (15, 17, FaultKind::Spare);
    let fault = Fault { at, end, why };
    let place = "spare at 15 end 17";
    assert!(rt; says(alloc, &fault, place));
    assert!(rt; says(alloc, &DecodeError::from(fault), place));
    assert!(rt; says(alloc, &TextError::Fault(fault), place));
    assert!(rt; says(alloc, &RadioTextError::Fault(fault), place));
    assert!(rt; says(alloc, &TextError::NotHex, "not hexadecimal"));
    assert!(rt; says(alloc, &RadioTextError::NotHex, "not hexadecimal"));
    assert!(rt; says(alloc, &TextError::WrongSize, "wrong size"));
    assert!(rt; says(alloc, &TextError::PadBits, "pad bits set"));
    assert!(rt; says(alloc, &etcs_telegram::EncodeError::TooBig, "too big"));
    assert!(rt; says(alloc, &etcs_radio::EncodeError::TooBig, "too big"));
    assert!(rt; says(alloc, &BuildError::TooMany, "too many"));
    assert!(rt; says(alloc, &BuildError::TooLong, "too long"));
}

#[test]
fn errors_say_that_memory_ran_out(rt: HostRuntime) {
    let (alloc, text) = (rt.alloc(), "out of memory");
    assert!(rt; says(alloc, &Memory, text));
    assert!(rt; says(alloc, &DecodeError::from(Memory), text));
    assert!(rt; says(alloc, &TextError::Memory, text));
    assert!(rt; says(alloc, &RadioTextError::Memory, text));
    assert!(rt; says(alloc, &etcs_telegram::EncodeError::Memory, text));
    assert!(rt; says(alloc, &etcs_radio::EncodeError::Memory, text));
}
