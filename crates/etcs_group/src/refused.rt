//! `Refused`: why telegrams that were read make no message.

ghost use Rattle.std.specs.Prelude.{◌≡◌};
ghost use Rattle.etcs_group.specs.declared.refused.Refused.TheVariants as reasons;

use etcs_bits::Memory;
use thiserror::Error;

/// Why the telegrams that were read make no message, in the order in which the reasons are checked; lack of
/// memory is last. A place is an index in the list of telegrams, from 0; a position is an N_PIG (this
/// project's rule, after SUBSET-026, 3.16.2).
#[derive(Clone, Copy, Debug, PartialEq, Eq, Error)]
pub enum Refused {
    /// Memory ran out.
    #[error("out of memory")]
    Memory,
    /// There is no telegram.
    #[error("nothing read")]
    Nothing,
    /// The telegram at this index is the first whose version, identity, N_TOTAL or Q_LINK differs from the
    /// telegram at index 0.
    #[error("place {0} disagrees with place 0")]
    Disagree(usize),
    /// The telegram at this index is the first whose N_PIG is above its N_TOTAL, or does not come after the
    /// N_PIG before it: greater in nominal running, smaller in reverse.
    #[error("place {0} out of order")]
    Order(usize),
    /// This position is the least, up to N_TOTAL, that no telegram has and no telegram's duplicate flag
    /// names.
    #[error("position {0} absent")]
    Absent(usize),
    /// The telegram at this index is the first whose counter is 254, or is below 254 and differs from
    /// one below 254 at an earlier index.
    #[error("counter of place {0} does not fit")]
    Counter(usize),
}

impl From<Memory> for Refused {
    ghost from_gives = { λ _ error. error ≡ reasons.Memory };

    fn from(_memory: Memory) -> Refused {
        Refused::Memory
    }
}
