//! `RunError`: why a run stopped without a status.

ghost use Rattle.std.specs.Prelude.{◌≡◌};
ghost use Rattle.etcs_run.specs.declared.error.RunError.TheVariants as errors;

use etcs_bits::Memory;
use std::io;
use thiserror::Error;

/// Why a run stopped without a status. The bytes written so far are a beginning of the output.
#[derive(Clone, Copy, Debug, PartialEq, Eq, Error)]
pub enum RunError {
    /// An allocation failed.
    #[error("memory")]
    Memory,
    /// A read, a write or a flush failed.
    #[error("device")]
    Device,
}

impl From<Memory> for RunError {
    ghost from_gives = { λ _ error. error ≡ errors.Memory };

    fn from(_memory: Memory) -> RunError {
        RunError::Memory
    }
}

// The only errors of a reader or writer that a run meets are failed calls.
impl From<io::Error> for RunError {
    ghost from_gives = { λ _ error. error ≡ errors.Device };

    fn from(_error: io::Error) -> RunError {
        RunError::Device
    }
}
