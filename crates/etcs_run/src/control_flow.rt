//! `ControlFlow`: what follows a line.

use crate::status::Status;

/// What follows a line.
#[derive(Clone, Copy, Debug, PartialEq, Eq)]
pub enum ControlFlow {
    /// The next line.
    Next,
    /// The end of the run, with its status.
    Stop(Status),
}
