//! `TextLineMeaning`: what a line of the input means to a command. `Unwritten`: why nothing is written for it.

ghost use Rattle.std.specs.Prelude.{◌≡◌};
ghost use Rattle.etcs_run.specs.TextLineMeaning.{Gives, Meaning};

use etcs_bits::Memory;
use etcs_document::LineFault;
use std::alloc::Global;

/// Why there is no text for a line.
#[derive(Debug, Drop)]
pub enum Unwritten {
    /// An allocation failed.
    Memory,
    /// The line is refused for this reason.
    Refused(LineFault),
}

impl From<Memory> for Unwritten {
    ghost use Rattle.etcs_run.specs.declared.text_line_meaning.Unwritten.TheVariants as reasons;

    ghost from_gives = { λ _ reason. reason ≡ reasons.Memory };

    fn from(_memory: Memory) -> Unwritten {
        Unwritten::Memory
    }
}

/// What each line of the input means to a command, independent of the lines before it. A command may keep
/// a buffer from one line to the next, which does not affect the meaning.
pub trait TextLineMeaning: Drop {
    /// The text that is written for a line, or the reason why the line is refused, in words.
    ghost meaning: { Meaning };

    /// The text of a line, with its `\n`, in the buffer `room`, whose content is lost.
    ///
    /// `Memory`: an allocation failed. Otherwise the line is refused for a reason. After either error the
    /// buffer is dropped.
    fn text(&mut self, alloc: Global, room: Vec<u8>, line: &[u8]) -> Result<Vec<u8>, Unwritten>
        ensures { Gives (λ text. text.items) result (meaning line.now) };
}
