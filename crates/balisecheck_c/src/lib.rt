//! The commands of `balisecheck`, and the reading of single records, for programs in C and other languages.
//!
//! `include/balisecheck.h` declares the exported functions, and states what their callers must ensure. A
//! command returns what [`etcs_run::run`] writes for the input, and its status. A record is a telegram or a
//! radio message: its text becomes its JSON line, or the place of its first fault. Read `commands.rt` first,
//! with `specs/Answer.antt`, then `tables.rt`, `findings.rt`, with `specs/Findings.antt`, and then `records.rt`,
//! with `specs/Records.antt`. Nothing is kept between calls.
#![tactic(auto)]

mod answer;
mod commands;
mod fault;
mod findings;
mod records;
mod tables;
