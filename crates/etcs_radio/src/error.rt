//! `EncodeError` and `RadioTextError`: why a message is not written, and why a text is not read.

ghost use Rattle.std.specs.Prelude.{◌≡◌};
ghost use Rattle.etcs_radio.specs.declared.error.EncodeError.TheVariants as errors;

use etcs_bits::{Fault, Memory};
use thiserror::Error;

/// Why a message was not written.
#[derive(Clone, Copy, Debug, PartialEq, Eq, Error)]
pub enum EncodeError {
    /// Memory ran out.
    #[error("out of memory")]
    Memory,
    /// The head and the packets have more bits than 1,023 bytes have.
    #[error("too big")]
    TooBig,
}

/// Why a text is not read as a message. `NotHex` is checked first, without memory.
#[derive(Clone, Copy, Debug, PartialEq, Eq, Error)]
pub enum RadioTextError {
    /// Memory ran out. A fault might then be unreported.
    #[error("out of memory")]
    Memory,
    /// The text is not an even number of hexadecimal digits, of either case.
    #[error("not hexadecimal")]
    NotHex,
    /// The bytes are not a message. This is their first fault.
    #[error("{0}")]
    Fault(Fault),
}

impl From<Memory> for EncodeError {
    ghost from_gives = { λ _ error. error ≡ errors.Memory };

    fn from(_memory: Memory) -> EncodeError {
        EncodeError::Memory
    }
}
