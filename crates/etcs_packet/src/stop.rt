//! `Stop`: whether a list of packets ends as in a telegram or as in a message.

/// What a list of packets is part of. This decides where the list ends (SUBSET-026, 7.4 and 8.4).
#[derive(Clone, Copy, Debug, PartialEq, Eq)]
pub enum Stop {
    /// A balise telegram. Its packets end at the end mark, packet 255, whose NID_PACKET is eight
    /// ones.
    Telegram,
    /// A radio message. Its packets end at eight ones, or where fewer than eight bits are left.
    Message,
}
