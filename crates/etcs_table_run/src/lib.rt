//! The program `balisecheck_table`, from words and the bytes of a table to a text and a status.
//!
//! [`run`] reads the table from a [`Counted`] reader, and writes the report on it, or why it is refused, to a [`Counted`]
//! writer. `specs/TableOutput.antt` defines that text for every input, and `specs/Ran.antt` of `etcs_run` what is promised
//! about it. [`answer_table`] gives the text and the status for bytes that are already in memory. The reader, the writer, the status and the failures are those of `etcs_run`. Read `program.rt` first, then
//! `checking.rt`. Standard input and output are not part of the crate.
#![tactic(auto)]

mod checking;
pub mod laws;
mod program;

pub use checking::answer_table;
pub use etcs_run::{Counted, RunError, Status};
pub use program::run;
