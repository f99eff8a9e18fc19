//! `TableRefusal`: why a table is refused. `CheckTableError` adds that memory ran out.

ghost use Rattle.std.specs.Prelude.{◌≡◌};
ghost use Rattle.etcs_table_check.specs.declared.error.CheckTableError.TheVariants as errors;

use etcs_bits::Memory;
use etcs_table::TableFault;
use etcs_telegram::TextError;
use std::alloc::{AllocError, AllocFailed};
use thiserror::Error;

/// Why a table is refused: the first fault of its text, of its telegrams in the order of their rows, or of its groups.
#[derive(Clone, Copy, Debug, PartialEq, Eq, Error)]
pub enum TableRefusal {
    /// The table stands for no groups.
    #[error("{0}")]
    Table(TableFault),
    /// The digits in the row with this number are not a telegram.
    #[error("row {0}: {1}")]
    Telegram(usize, TextError),
}

/// Why a table is not checked.
#[derive(Clone, Copy, Debug, PartialEq, Eq, Error)]
pub enum CheckTableError {
    /// Memory ran out. The table might be refused all the same.
    #[error("out of memory")]
    Memory,
    /// The table is refused.
    #[error("{0}")]
    Refused(TableRefusal),
}

impl From<Memory> for CheckTableError {
    ghost from_gives = { λ _ error. error ≡ errors.Memory };

    fn from(_memory: Memory) -> CheckTableError {
        CheckTableError::Memory
    }
}

impl<T: Drop> From<AllocFailed<T>> for CheckTableError {
    ghost from_gives = { λ _ error. error ≡ errors.Memory };

    fn from(_failed: AllocFailed<T>) -> CheckTableError {
        CheckTableError::Memory
    }
}

impl From<AllocError> for CheckTableError {
    ghost from_gives = { λ _ error. error ≡ errors.Memory };

    fn from(_failed: AllocError) -> CheckTableError {
        CheckTableError::Memory
    }
}
