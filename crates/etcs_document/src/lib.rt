//! Reads and checks the document of a railway line, and writes the texts of findings and refusals.
//!
//! [`read_line`] reads the document, and [`check_text`] finds all facts against the line. Read `document.rt`
//! first, with `specs/Document.antt`, and then `specs/Verdict.antt`, which defines what a yes states.
//! [`check_in_order`] gives the same answer as [`check_text`], and keeps no group and no message. It reads the
//! tokens of the text, and JSON values for what it cannot decide so (`streaming.rt`, `specs/DocumentTokens.antt`).
//! [`report`] writes the findings of a line, and [`refusal_text`] why an input is refused. `etcs_form`
//! exports the names of this crate and of `etcs_json`.
#![tactic(auto)]

mod check;
mod document;
mod document_aspects;
mod document_groups;
mod document_values;
pub mod laws;
mod line_error;
mod refusal;
mod report_text;
mod sink;
mod streaming;
mod token_groups;
mod token_reader;

pub use check::{Verdict, check_text};
pub use document::read_line;
pub use line_error::LineError;
pub use refusal::{LineFault, Refusal, StreamFault, refusal_text};
pub use report_text::{report, report_counts};
pub use streaming::{Checked, check_in_order};
