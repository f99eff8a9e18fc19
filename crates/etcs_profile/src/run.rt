//! `Run`: the direction in which a train runs.

/// The direction in which a train runs over a balise group: in the order of its balises, or against
/// that order (SUBSET-026, 3.4.2).
#[derive(Clone, Copy, Debug, PartialEq, Eq)]
pub enum Run {
    /// Away from the balise with N_PIG 0.
    Nominal,
    /// Towards the balise with N_PIG 0.
    Reverse,
}
