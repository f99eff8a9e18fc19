//! The commands of `balisecheck`, from words and an input to a text and a status: from the document of a
//! railway line to the findings about the line; from lines of hexadecimal text, each a Eurobalise
//! telegram, to lines of JSON, and back; and from a stream of radio messages to lines of JSON, and back.
//!
//! [`run`] executes the words of a command line, from a [`Counted`] reader to a [`Counted`] writer, and
//! [`execute`] a [`Command`]. Their contracts state what is written for every input: `specs/Commands.antt`
//! defines that text, and `specs/Ran.antt` what is promised about it. Both return a [`Status`], or a [`RunError`] if an allocation
//! or a device failed. Read `program.rt` first, then `answering.rt`, `text_line_command.rt`,
//! `text_line_meaning.rt`, `each_text_line.rt` and `text_lines.rt`. The meaning of a line is in
//! `telegram_lines.rt` and `form_lines.rt`. A stream is decoded in `radio_decoding.rt`, independent of the ends
//! of its lines. A document is checked as a whole, in `checking.rt`. [`read_whole`] and [`write_out`] also serve
//! programs that answer other inputs as a whole. Standard input and output are not part of the crate.
#![tactic(auto)]

mod answering;
mod checking;
mod command;
mod control_flow;
mod counted;
mod each_text_line;
mod error;
mod form_lines;
mod output;
mod program;
mod radio_decoding;
mod status;
mod telegram_lines;
mod text_line_command;
mod text_line_meaning;
mod text_lines;
mod whole_input;

pub use command::Command;
pub use counted::Counted;
pub use error::RunError;
pub use output::write_out;
pub use program::{execute, run};
pub use status::Status;
pub use whole_input::read_whole;
