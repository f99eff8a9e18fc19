//! `DecodingTelegrams`: a line of hexadecimal text, a telegram, becomes a line of JSON.

ghost use Rattle.std.specs.Prelude.{◌≡◌, Err};
ghost use Rattle.etcs_telegram.specs.declared.error.TextError.{TextError};
ghost use Rattle.etcs_run.specs.TextLineMeaning.{Gives};
ghost use Rattle.etcs_run.specs.TelegramLines.{IsEarly};

use crate::text_line_meaning::{TextLineMeaning, Unwritten};
use etcs_document::LineFault;
use etcs_json::json_line;
use etcs_telegram::{TextError, from_hex};
use std::alloc::Global;

/// A line is the hexadecimal text of a telegram, and becomes its JSON line. A line that is not a
/// telegram is refused for the first reason.
#[derive(Drop)]
pub struct DecodingTelegrams;

#[tactic(auto, unfolding(crate::specs::TelegramLines::telegram_decoded))]
impl TextLineMeaning for DecodingTelegrams {
    ghost use Rattle.etcs_run.specs.TelegramLines.{telegram_decoded};

    ghost meaning = { telegram_decoded };

    /// The JSON line of a telegram. `room` is the buffer of an earlier line.
    ///
    /// `Memory`: an allocation failed. Otherwise the line is refused for the first reason. A reason that is
    /// found before any packet is read is always reported: it needs no memory.
    fn text(&mut self, alloc: Global, room: Vec<u8>, line: &[u8]) -> Result<Vec<u8>, Unwritten>
        ensures means { Gives (λ text. text.items) result (telegram_decoded line.now) }
        ensures early { (why : TextError) → IsEarly why line.now
            → result ≡ Err (Unwritten.Refused (LineFault.Text why)) }
    {
        match from_hex(alloc, line) {
            Ok(telegram) => Ok(json_line(room, &telegram)?),
            Err(why) => match why {
                TextError::Memory => Err(Unwritten::Memory),
                _ => Err(Unwritten::Refused(LineFault::Text(why))),
            },
        }
    }
}
