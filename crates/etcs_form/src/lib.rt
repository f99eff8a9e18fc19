//! JSON forms and documents of railway lines, for programmers: the names of `etcs_json`, which has
//! the forms of telegrams and messages, of `etcs_document`, which reads and checks documents, of
//! `etcs_findings`, which writes findings as JSON, and of `etcs_schema` below them. It has no code of its own.
#![tactic(auto)]

pub mod laws;

pub use etcs_document::{
    Checked, LineError, LineFault, Refusal, StreamFault, Verdict, check_in_order, check_text,
    read_line, refusal_text, report, report_counts,
};
pub use etcs_findings::{Outcome, findings_json};
pub use etcs_json::{Form, Record, WriteJson};
pub use etcs_schema::{FormError, JsonError, JsonTree, JsonValue, ParsedJson, Step};
