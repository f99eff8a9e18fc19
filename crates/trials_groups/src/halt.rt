//! Why calls gave no result. A test of refused memory must distinguish lack of memory from any other cause.

use etcs_bits::{DecodeError, Memory};
use etcs_check::CheckError;
use etcs_group::Refused;
use etcs_radio::RadioTextError;
use etcs_telegram::TextError;
use std::alloc::{AllocError, AllocFailed};

/// Why calls gave no result.
#[derive(Clone, Copy, Debug, PartialEq, Eq)]
pub enum Halt {
    /// Memory ran out.
    Memory,
    /// Anything else, which must not happen.
    Other,
}

impl From<Memory> for Halt {
    fn from(_memory: Memory) -> Halt {
        Halt::Memory
    }
}

impl From<AllocError> for Halt {
    fn from(_error: AllocError) -> Halt {
        Halt::Memory
    }
}

impl<T: Drop> From<AllocFailed<T>> for Halt {
    fn from(_failed: AllocFailed<T>) -> Halt {
        Halt::Memory
    }
}

impl From<DecodeError> for Halt {
    fn from(error: DecodeError) -> Halt {
        halt_of(error == DecodeError::Memory)
    }
}

impl From<TextError> for Halt {
    fn from(error: TextError) -> Halt {
        halt_of(error == TextError::Memory)
    }
}

impl From<RadioTextError> for Halt {
    fn from(error: RadioTextError) -> Halt {
        halt_of(error == RadioTextError::Memory)
    }
}

impl From<etcs_telegram::EncodeError> for Halt {
    fn from(error: etcs_telegram::EncodeError) -> Halt {
        halt_of(error == etcs_telegram::EncodeError::Memory)
    }
}

impl From<etcs_radio::EncodeError> for Halt {
    fn from(error: etcs_radio::EncodeError) -> Halt {
        halt_of(error == etcs_radio::EncodeError::Memory)
    }
}

impl From<CheckError> for Halt {
    fn from(error: CheckError) -> Halt {
        halt_of(error == CheckError::Memory)
    }
}

impl From<Refused> for Halt {
    fn from(error: Refused) -> Halt {
        halt_of(error == Refused::Memory)
    }
}

fn halt_of(is_memory: bool) -> Halt {
    if is_memory { Halt::Memory } else { Halt::Other }
}
