//! The findings of `check`, or why its input is refused, as one line of JSON for programs.
//!
//! [`findings_json`] reads the document of a railway line and returns that line. It has the counts and the findings
//! from which `check` makes its report, in the same order, or the first fault with each part of its place. Read
//! `answer.rt` first, with `specs/Answer.antt`, then `finding.rt` and `refusal.rt`. The laws of [`laws`] state that
//! each line is JSON, and that no two answers have the same line. Nothing here judges a railway line: that is the
//! work of `etcs_document` and `etcs_check`.
#![tactic(auto)]

mod answer;
mod finding;
pub mod laws;
mod members;
mod refusal;

pub use answer::{Outcome, findings_json};
