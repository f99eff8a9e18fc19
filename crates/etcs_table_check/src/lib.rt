//! Checks the railway line of a CSV table, and names the rows of each finding.
//!
//! [`check_table`] reads the bytes of a table, and gives the [`TableVerdict`] on it: how many groups and telegrams it
//! has, and all facts against its line, each with its rows. [`report`] writes the verdict, and
//! [`refusal_text`] why a table is refused. The definition is `specs/Verdict.antt`, which uses the definitions of
//! `etcs_table` for the groups of a table, and those of `etcs_check` for the facts. Read `specs/Line.antt` first, which defines the line, then `verdict.rt`, `telegrams.rt` and `line.rt`.
//! A table has no radio messages. [`laws`] has rows and reports that are worked out, and states what a verdict is about.
#![tactic(auto)]

mod error;
mod finding_rows;
pub mod laws;
mod line;
mod refusal;
mod report_text;
mod telegrams;
mod verdict;

pub use error::{CheckTableError, TableRefusal};
pub use finding_rows::RowFinding;
pub use refusal::refusal_text;
pub use report_text::report;
pub use verdict::{TableVerdict, check_table};
