//! `EncodeError` and `TextError`: why a telegram is not written, and why a text is not read.

ghost use Rattle.std.specs.Prelude.{◌≡◌};
ghost use Rattle.etcs_telegram.specs.declared.error.EncodeError.TheVariants as errors;

use etcs_bits::{DecodeError, Fault, Memory};
use thiserror::Error;

/// Why a telegram was not written.
#[derive(Clone, Copy, Debug, PartialEq, Eq, Error)]
pub enum EncodeError {
    /// Memory ran out.
    #[error("out of memory")]
    Memory,
    /// The header, the packets and the end mark have more bits than the telegram's size.
    #[error("too big")]
    TooBig,
}

/// Why a text is not read as a telegram. All reasons but `Memory` are in the order of the checks.
#[derive(Clone, Copy, Debug, PartialEq, Eq, Error)]
pub enum TextError {
    /// Memory ran out. A later reason might then be unreported.
    #[error("out of memory")]
    Memory,
    /// The text is not an even number of hexadecimal digits, of either case.
    #[error("not hexadecimal")]
    NotHex,
    /// The number of digits is neither 54 nor 208.
    #[error("wrong size")]
    WrongSize,
    /// A pad bit is set: one of the six after 210 user bits, or of the two after 830.
    #[error("pad bits set")]
    PadBits,
    /// The user bits are not a telegram. This is their first fault.
    #[error("{0}")]
    Fault(Fault),
}

impl From<Memory> for EncodeError {
    ghost from_gives = { λ _ error. error ≡ errors.Memory };

    fn from(_memory: Memory) -> EncodeError {
        EncodeError::Memory
    }
}
