//! `Reach`: how far along the track a profile reaches.

/// How far along the track a profile reaches, from the balise group that sends it.
#[derive(Clone, Copy, Debug, PartialEq, Eq)]
pub enum Reach {
    /// The profile reaches this many decimetres, up to the first element that is marked as the end.
    Ends(u64),
    /// No element is marked: the profile has no end.
    Open,
}
