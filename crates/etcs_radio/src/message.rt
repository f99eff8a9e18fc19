//! `Message`: a radio message of either kind.

use crate::movement::MovementMessage;
use crate::position::PositionMessage;

/// A radio message that is read and written here (SUBSET-026, 8.6 and 8.7).
#[derive(Debug, Drop)]
pub enum Message {
    /// Message 3, from the track: how far the train may run.
    Movement(MovementMessage),
    /// Message 136, from the train: where it is.
    Position(PositionMessage),
}
