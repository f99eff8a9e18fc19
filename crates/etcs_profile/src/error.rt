//! `BuildError`: why a packet cannot be built.

use thiserror::Error;

/// Why a packet cannot be built from the given parts (SUBSET-026, 7.4).
#[derive(Clone, Copy, Debug, PartialEq, Eq, Error)]
pub enum BuildError {
    /// A list has more than 31 items, which N_ITER, 5 bits, cannot count.
    #[error("too many")]
    TooMany,
    /// The packet has more than 8,191 bits, which L_PACKET, 13 bits, cannot count.
    #[error("too long")]
    TooLong,
}
